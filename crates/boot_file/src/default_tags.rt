//! The default tag rules.
ghost use Rattle.std.specs.Prelude.{◌≡◌, ◌≢◌, ◌<◌, ◌≤◌, ◌^◌, ◌==◌, codes, [], Some, None, Ok, Err, IfOk};
ghost use lib.Pointwise.{pointwise};
ghost use Rattle.boot_file.specs.Tags.{name_of, regex_of, place_of, placed, called};

use boot_values::{Place, path_of};
use stat_defs::{NoMemory, Rule, TagSpec, Txt};
use std::alloc::Global;

/// A tag rule with the path of its pattern in the bootstrap, which is empty for a fixed value.
#[derive(Drop)]
pub(crate) struct PlacedTag {
    pub spec: TagSpec,
    pub path: Txt,
}

/// The default tag rules, in their order.
#[derive(Clone, Copy, Debug, PartialEq, Eq)]
pub(crate) enum DefaultTag {
    ResponseCode,
    ResponseCodeClass,
    ClusterName,
    ConnManagerPrefix,
}

fn name_of(tag: DefaultTag) -> &'static str
    ensures { result.now ≡ name_of tag }
{
    match tag {
        DefaultTag::ResponseCode => "envoy.response_code",
        DefaultTag::ResponseCodeClass => "envoy.response_code_class",
        DefaultTag::ClusterName => "envoy.cluster_name",
        DefaultTag::ConnManagerPrefix => "envoy.http_conn_manager_prefix",
    }
}

fn regex_of(tag: DefaultTag) -> &'static str
    ensures { result.now ≡ regex_of tag }
{
    match tag {
        DefaultTag::ResponseCode => "_rq(_(\\d{3}))$",
        DefaultTag::ResponseCodeClass => "_rq_(\\d)xx$",
        DefaultTag::ClusterName => "^cluster\\.((.*?)\\.)",
        DefaultTag::ConnManagerPrefix => "^http\\.((.*?)\\.)",
    }
}

fn place_of(tag: DefaultTag) -> usize
    ensures { result ≡ place_of tag }
{
    match tag {
        DefaultTag::ResponseCode => 0,
        DefaultTag::ResponseCodeClass => 1,
        DefaultTag::ClusterName => 2,
        DefaultTag::ConnManagerPrefix => 3,
    }
}

/// A default rule, with the path of its pattern.
pub(crate) fn placed(alloc: Global, tag: DefaultTag) -> Result<PlacedTag, NoMemory>
    ensures { IfOk result (λ t. t ≡ placed tag) }
{
    let tag_name = Txt::of(alloc, name_of(tag).as_bytes())?;
    let regex = Txt::of(alloc, regex_of(tag).as_bytes())?;
    let path = path_of(alloc, Place::Default(place_of(tag)), "")?;
    Ok(PlacedTag {
        spec: TagSpec {
            tag_name,
            rule: Rule::Regex(regex),
        },
        path,
    })
}

fn is_called(tag: DefaultTag, name: &[u8]) -> bool
    ensures { result ≡ pointwise ◌==◌ name.now (name_of tag) }
{
    name == name_of(tag).as_bytes()
}

/// The default rule of a name.
pub(crate) fn called(name: &[u8]) -> Option<DefaultTag>
    ensures { result ≡ called name.now }
{
    if is_called(DefaultTag::ResponseCode, name) {
        return Some(DefaultTag::ResponseCode);
    }
    if is_called(DefaultTag::ResponseCodeClass, name) {
        return Some(DefaultTag::ResponseCodeClass);
    }
    if is_called(DefaultTag::ClusterName, name) {
        return Some(DefaultTag::ClusterName);
    }
    if is_called(DefaultTag::ConnManagerPrefix, name) {
        return Some(DefaultTag::ConnManagerPrefix);
    }
    None
}
