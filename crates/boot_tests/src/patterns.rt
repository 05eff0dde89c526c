ghost use Rattle.std.specs.Prelude.{IfOk};
ghost use Rattle.tag_rules.specs.Admission.{IsReadable};
ghost use Rattle.tag_rules.specs.Tagging.{IsReadableRule};

use regex::Regex;
use stat_defs::{Bound, BucketSpec, List, MatchSpec, Pattern, Rule, TagSpec, Txt};
use std::alloc::Global;
use std::process::Abort;
use std::test::Fail;
use tag_rules::{Buckets, Matcher, Pat, PatternMaker, RegexMaker, TagFault, TagRules};

/// Full names, each with what the default rules make of it: what is left, and then the tags. They have in turn: a
/// cluster's name, a code, a class of codes, a listener's prefix, and two of them; no tag, since the beginning or the
/// dot after the name is missing; the shortest text up to a dot, which may be empty; what one rule removes and so makes
/// a match for another, which looks at the name as it was; a code, which has three digits and ends the name; a class,
/// which has one digit before `xx`, which ends the name.
const SPLITS: &str =
    "cluster.foo_cluster.upstream_rq_timeout | cluster.upstream_rq_timeout envoy.cluster_name=foo_cluster
cluster.c.upstream_rq_2xx | cluster.upstream_rq_xx envoy.response_code_class=2 envoy.cluster_name=c
cluster.c.upstream_rq_200 | cluster.upstream_rq envoy.response_code=200 envoy.cluster_name=c
http.admin.downstream_rq_5xx | http.downstream_rq_xx envoy.response_code_class=5 envoy.http_conn_manager_prefix=admin
http.admin.downstream_rq_503 | http.downstream_rq envoy.response_code=503 envoy.http_conn_manager_prefix=admin
server.uptime | server.uptime
x | x
cluster | cluster
cluster. | cluster.
cluster.c | cluster.c
http.h | http.h
Cluster.c.x | Cluster.c.x
a.cluster.c.x | a.cluster.c.x
xcluster.c.x | xcluster.c.x
cluster.c. | cluster. envoy.cluster_name=c
cluster..x | cluster.x envoy.cluster_name=
cluster... | cluster.. envoy.cluster_name=
cluster.a.b.c | cluster.b.c envoy.cluster_name=a
cluster.~!:|.x | cluster.x envoy.cluster_name=~!:|
http.a.b.c | http.b.c envoy.http_conn_manager_prefix=a
http.. | http. envoy.http_conn_manager_prefix=
http.cluster.c.x | http.c.x envoy.http_conn_manager_prefix=cluster
cluster.http.h.x | cluster.h.x envoy.cluster_name=http
cluster.c._rq_200 | cluster._rq envoy.response_code=200 envoy.cluster_name=c
a_rq_200 | a_rq envoy.response_code=200
_rq_007 | _rq envoy.response_code=007
a_rq_100_rq_200 | a_rq_100_rq envoy.response_code=200
a_rq_20 | a_rq_20
a_rq_2000 | a_rq_2000
a_rq_200.b | a_rq_200.b
rq_200 | rq_200
a_rq_4xx | a_rq_xx envoy.response_code_class=4
a_rq_44xx | a_rq_44xx
a_rq_4xxx | a_rq_4xxx";

/// Regular expressions, of which each is the rule of a tag in each of the names, by `regex` too: alternatives, empty groups,
/// groups that take no part, classes, anchors, flags at the front, counted and lazy repeats, and a character of two
/// bytes.
const PATTERNS: &str = r"(a|ab)(c|bcd)?
((a*)b)
(x*)
((a)|b)+
([a-c]+)\.([0-9]{1,3})
^(\w+)\.
(\w+)$
(?i)(AB)c
(a{2,3})(a)?
((ab){2})
(a+?)(b*)
()(b)?
_rq(_(\d{3}))$
([^.]*)\.([^.]*)$
(.)(.)?
\b(b)|(c)
(?:a|b)(c)?
((a|b|c)*d)
(é|x)
^(?:(a)|(b))$";

const NAMES: &str = "a b ab abcd aab.12 a.b.c_rq_200 x.ABc aaaa ..ababd xé.b";

/// How a rule of a test gives its tag.
#[derive(Clone, Copy)]
enum Way {
    Regex,
    Fixed,
}

/// What a pattern of a test looks at.
#[derive(Clone, Copy)]
enum Part {
    All,
    Start,
    End,
    Any,
    Regex,
}

fn rule(alloc: Global, way: Way, tag_name: &str, text: &str) -> Result<TagSpec, Fail>
    ensures { IfOk result IsReadableRule }
{
    let tag_name = Txt::of(alloc, tag_name.as_bytes())?;
    let text = Txt::of(alloc, text.as_bytes())?;
    let rule = match way {
        Way::Regex => Rule::Regex(text),
        Way::Fixed => Rule::Fixed(text),
    };
    Ok(TagSpec { tag_name, rule })
}

fn pattern(alloc: Global, part: Part, text: &str) -> Result<Pattern, Fail>
    ensures { IfOk result IsReadable }
{
    let text = Txt::of(alloc, text.as_bytes())?;
    Ok(match part {
        Part::All => Pattern::Exact(text),
        Part::Start => Pattern::Prefix(text),
        Part::End => Pattern::Suffix(text),
        Part::Any => Pattern::Contains(text),
        Part::Regex => Pattern::SafeRegex(text),
    })
}

// What the rules make of a name: what is left of it, and after it each tag.
fn shown(alloc: Global, rules: &TagRules, name: &str) -> Result<Vec<u8>, Fail> {
    let tagged = rules.split(alloc, &Txt::of(alloc, name.as_bytes())?)?;
    let mut text = tagged.extracted.bytes().to_vec(alloc)?;
    for tag in tagged.tags.items() {
        text.extend_from_slice(b" ")?;
        text.extend_from_slice(tag.name.bytes())?;
        text.extend_from_slice(b"=")?;
        text.extend_from_slice(tag.value.bytes())?;
    }
    Ok(text)
}

// What two rules make of a name.
fn split_by(alloc: Global, one: TagSpec, other: TagSpec, name: &str) -> Result<Vec<u8>, Fail>
    requires one { IsReadableRule one }
    requires other { IsReadableRule other }
{
    let mut maker = RegexMaker::new(Vec::new(alloc));
    let rules = TagRules::build(alloc, &mut maker, &[one, other])?;
    shown(alloc, &rules, name)
}

// Whether a list of this pattern alone, read as an inclusion and as an exclusion list, admits the name.
fn admitted(alloc: Global, part: Part, text: &str, name: &str) -> Result<(bool, bool), Fail> {
    let mut maker = RegexMaker::new(Vec::new(alloc));
    let include = MatchSpec::Include(List::of(vec![in alloc; pattern(alloc, part, text)?]?));
    let exclude = MatchSpec::Exclude(List::of(vec![in alloc; pattern(alloc, part, text)?]?));
    let included = Matcher::build(alloc, &mut maker, &include)?.admits(alloc, name.as_bytes())?;
    let excluded = Matcher::build(alloc, &mut maker, &exclude)?.admits(alloc, name.as_bytes())?;
    Ok((included, excluded))
}

fn setting(alloc: Global, part: Part, text: &str, halves: u64) -> Result<BucketSpec, Fail>
    ensures { IfOk result (λ spec. IsReadable spec.pattern) }
{
    Ok(BucketSpec {
        pattern: pattern(alloc, part, text)?,
        bounds: List::of(vec![in alloc; Bound { halves }]?),
    })
}

// The number of bounds, and twice the first.
fn bounds_of(alloc: Global, buckets: &Buckets, name: &str) -> Result<(usize, u64), Fail> {
    let bounds = buckets.bounds_for(alloc, name.as_bytes())?;
    Ok((bounds.len(), bounds.first().map_or(0, |bound| bound.halves)))
}

#[test]
fn default_rules(rt: HostRuntime) -> Result<(), Fail> {
    let alloc = rt.alloc();
    let specs = [
        rule(alloc, Way::Regex, "envoy.response_code", r"_rq(_(\d{3}))$")?,
        rule(
            alloc,
            Way::Regex,
            "envoy.response_code_class",
            r"_rq_(\d)xx$",
        )?,
        rule(
            alloc,
            Way::Regex,
            "envoy.cluster_name",
            r"^cluster\.((.*?)\.)",
        )?,
        rule(
            alloc,
            Way::Regex,
            "envoy.http_conn_manager_prefix",
            r"^http\.((.*?)\.)",
        )?,
    ];
    let mut maker = RegexMaker::new(Vec::new(alloc));
    let rules = TagRules::build(alloc, &mut maker, &specs)?;
    for row in SPLITS.split('\n') {
        let (name, wanted) = row.split_once(" | ").unwrap_or(("", ""));
        let text = shown(alloc, &rules, name)?;
        assert_eq!(rt; text.as_slice(), wanted.as_bytes(), "of {name}");
    }
    Ok(())
}

// The word at that place of a row, whose words are parted so.
fn word(row: &str, parted: char, at: usize) -> &str {
    row.split(parted).nth(at).unwrap_or("")
}

fn way_of(word: &str) -> Way {
    match word {
        "fixed" => Way::Fixed,
        _ => Way::Regex,
    }
}

fn part_of(word: &str) -> Part {
    match word {
        "all" => Part::All,
        "start" => Part::Start,
        "end" => Part::End,
        "any" => Part::Any,
        _ => Part::Regex,
    }
}

/// Two rules, a name and what they make of it. In turn: both rules look at the whole name, and the union of their first
/// groups is taken out; the second rule is passed over; a match without a first group gives nothing, and does not stand
/// in the way of a later rule of its name, which two rows show; not the longest text up to a dot.
const TWO_RULES: &str = r"regex~a~^x\.((\w+)\.)~regex~b~^(x\.y)~x.y.z~z a=y b=x.y
fixed~a~1~regex~a~(z)~x.z~x.z a=1
regex~a~(q)?z~fixed~b~~x.z~x.z b=
regex~a~(q)?z~regex~a~\.(z)~x.z~x. a=z
regex~envoy.cluster_name~^cluster\.((.+?)\.)~fixed~f~v v~cluster.foo_cluster.upstream_rq_timeout~cluster.upstream_rq_timeout envoy.cluster_name=foo_cluster f=v v";

#[test]
fn two_rules(rt: HostRuntime) -> Result<(), Fail> {
    let alloc = rt.alloc();
    for row in TWO_RULES.split('\n') {
        let one = rule(
            alloc,
            way_of(word(row, '~', 0)),
            word(row, '~', 1),
            word(row, '~', 2),
        )?;
        let other = rule(
            alloc,
            way_of(word(row, '~', 3)),
            word(row, '~', 4),
            word(row, '~', 5),
        )?;
        let text = split_by(alloc, one, other, word(row, '~', 6))?;
        assert_eq!(rt; text.as_slice(), word(row, '~', 7).as_bytes(), "of {row}");
    }
    Ok(())
}

/// A pattern, a name, and whether it matches. A regular expression matches whole names, also where it has alternatives
/// or begins with a flag.
const MATCHES: &str = "start cluster. cluster.x yes
start cluster. server.y no
start cluster. a.cluster.x no
all a.b a.b yes
all a.b a.bc no
end .b a.b yes
end .b .b.a no
any b.c a.b.c.d yes
any b.c a.b.d.c no
regex a.c abc yes
regex b abc no
regex a|bc abc no
regex (?i)ab AB yes";

#[test]
fn patterns_of_each_kind(rt: HostRuntime) -> Result<(), Fail> {
    let alloc = rt.alloc();
    for row in MATCHES.split('\n') {
        let part = part_of(word(row, ' ', 0));
        let found = admitted(alloc, part, word(row, ' ', 1), word(row, ' ', 2))?;
        let wanted = word(row, ' ', 3) == "yes";
        assert_eq!(rt; found, (wanted, !wanted), "of {row}");
    }
    Ok(())
}

#[test]
fn bounds(rt: HostRuntime) -> Result<(), Fail> {
    let alloc = rt.alloc();
    let mut maker = RegexMaker::new(Vec::new(alloc));
    let specs = [
        setting(alloc, Part::Start, "a", 4)?,
        setting(alloc, Part::Regex, ".*b", 6)?,
    ];
    let buckets = Buckets::build(alloc, &mut maker, &specs)?;
    for (name, wanted) in [("ab", (1, 4)), ("cb", (1, 6)), ("c", (19, 1))] {
        assert_eq!(rt; bounds_of(alloc, &buckets, name)?, wanted, "of {name}");
    }
    Ok(())
}

#[test]
fn refusals(rt: HostRuntime) -> Result<(), Fail> {
    let alloc = rt.alloc();
    let rules = [
        rule(alloc, Way::Regex, "a", "a")?,
        rule(alloc, Way::Fixed, "b", "b")?,
        rule(alloc, Way::Regex, "c", "c")?,
    ];
    // Calls 0, 2 and 4 are refused: the first rule's, the third rule's, and the second call for the second
    // setting.
    let mut maker = RegexMaker::new(vec![in alloc; 0, 2, 4]?);
    let first = TagRules::build(alloc, &mut maker, &rules).err();
    assert_eq!(rt; first, Some(TagFault::BadPattern(0)));
    let third = TagRules::build(alloc, &mut maker, &rules).err();
    assert_eq!(rt; third, Some(TagFault::BadPattern(2)));
    let settings = [
        setting(alloc, Part::Start, "a", 4)?,
        setting(alloc, Part::Regex, "b", 6)?,
    ];
    let second = Buckets::build(alloc, &mut maker, &settings).err();
    assert_eq!(rt; second, Some(TagFault::BadPattern(1)));
    // This text is no regular expression, though it is one inside a group.
    let spec = MatchSpec::Include(List::of(vec![in alloc; pattern(alloc, Part::Regex, "a)(b")?]?));
    let alone = Matcher::build(alloc, &mut maker, &spec).err();
    assert_eq!(rt; alone, Some(TagFault::BadPattern(0)));
    assert_eq!(rt; maker.refusals(), 4);
    Ok(())
}

// What `regex` makes of a name: what is left without the first group, and the tag `t`, which is the second group where
// there is one.
fn by_regex(alloc: Global, pattern: &Regex, name: &str) -> Result<Vec<u8>, Fail> {
    let bytes = name.as_bytes();
    let mut matcher = pattern.matcher(alloc)?;
    let Some(captures) = matcher.captures(name) else {
        return Ok(bytes.to_vec(alloc)?);
    };
    let Some(first) = captures.get(1) else {
        return Ok(bytes.to_vec(alloc)?);
    };
    let value = captures.get(2).unwrap_or(first);
    let mut text = bytes.get(..first.start()).unwrap_or(b"").to_vec(alloc)?;
    text.extend_from_slice(bytes.get(first.end()..).unwrap_or(b""))?;
    text.extend_from_slice(b" t=")?;
    text.extend_from_slice(bytes.get(value.start()..value.end()).unwrap_or(b""))?;
    Ok(text)
}

// Asserts that a rule of this pattern makes of each name what `regex` does. The result is how many names get a tag.
fn assert_as_regex(rt: &impl Abort, alloc: Global, text: &str, names: &str) -> Result<u64, Fail> {
    let mut maker = RegexMaker::new(Vec::new(alloc));
    let spec = rule(alloc, Way::Regex, "t", text)?;
    let rules = TagRules::build(alloc, &mut maker, &[spec])?;
    let pattern = Regex::new(alloc, text)?;
    let mut tagged = 0u64;
    for name in names.split(' ') {
        let wanted = by_regex(alloc, &pattern, name)?;
        let made = shown(alloc, &rules, name)?;
        assert!(rt; made == wanted, "of {text} and {name}");
        tagged = tagged.wrapping_add(u64::from(made.as_slice() != name.as_bytes()));
    }
    Ok(tagged)
}

#[test]
fn beside_regex(rt: HostRuntime) -> Result<(), Fail> {
    let mut tagged = 0u64;
    for text in PATTERNS.split('\n') {
        tagged = tagged.wrapping_add(assert_as_regex(&rt, rt.alloc(), text, NAMES)?);
    }
    assert_eq!(rt; tagged, 94);
    Ok(())
}

// As many of these texts one behind the other.
fn repeated(alloc: Global, text: &str, count: usize) -> Result<String, Fail> {
    let mut all = String::new(alloc);
    for _ in 0..count {
        all.push_str(text)?;
    }
    Ok(all)
}

// A search in these names may take so long that the pattern's DFA is asked first. It is made for the first name, and has
// its states for the others.
#[test]
fn long_names(rt: HostRuntime) -> Result<(), Fail> {
    let alloc = rt.alloc();
    let stars = repeated(alloc, "(?:a*)*", 100)?;
    let many = repeated(alloc, "a", 500)?;
    let text = format!(in alloc; "^({stars}[bé])d$")?;
    let names = format!(in alloc; "{many}xbd {many}xéd {many}bd {many}bde {many}éd {many}xbd bd")?;
    assert_eq!(rt; assert_as_regex(&rt, alloc, &text, &names)?, 3);
    let anywhere = format!(in alloc; "({stars}[bé])d$")?;
    assert_eq!(rt; assert_as_regex(&rt, alloc, &anywhere, &names)?, 6);
    Ok(())
}

#[test]
fn sizes(rt: HostRuntime) -> Result<(), Fail> {
    let alloc = rt.alloc();
    for (text, made) in [
        (r"\w{40}", true),
        ("((a{0,30}){0,30}){0,1}x", true),
        (r"\w{1,60}", false),
        (r"(\w{1,60}\.){1,8}\w{1,60}N", false),
    ] {
        assert_eq!(rt; Pat::new(alloc, text).is_ok(), made, "of {text}");
    }
    Ok(())
}
