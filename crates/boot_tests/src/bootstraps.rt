//! Bootstraps with their configurations, and with their faults.

use boot_file::{BootFault, read, usual};
use stat_defs::{BucketSpec, Config, MatchSpec, NoMemory, Pattern, Rule, Txt};
use std::alloc::Global;

// A bootstrap of a row, in which `@N TEXT@` stands for N times TEXT.
fn bytes_of(alloc: Global, row: &str) -> Result<Vec<u8>, NoMemory> {
    let mut bytes = Vec::new(alloc);
    for (i, part) in row.split('@').enumerate() {
        match part.split_once(' ') {
            Some((count, text)) if i % 2 == 1 => {
                for _ in 0..count.parse::<usize>().unwrap_or(0) {
                    bytes.extend_from_slice(text.as_bytes())?;
                }
            }
            _ => bytes.extend_from_slice(part.as_bytes())?,
        }
    }
    Ok(bytes)
}

fn pattern_count(matcher: &MatchSpec) -> usize {
    match matcher {
        MatchSpec::AdmitAll => 0,
        MatchSpec::RejectAll => 0,
        MatchSpec::Exclude(patterns) => patterns.items().len(),
        MatchSpec::Include(patterns) => patterns.items().len(),
    }
}

// How many tag rules, patterns, bucket settings and scopes there are, the prefix, and the numbers of the run.
fn told_config(alloc: Global, config: &Config) -> Result<Vec<u8>, NoMemory> {
    let tags = config.tags.items().len();
    let patterns = pattern_count(&config.matcher);
    let buckets = config.buckets.items().len();
    let scopes = config.scopes.items().len();
    let counts = format!(in alloc; "ok {tags} {patterns} {buckets} {scopes} ")?;
    let mut told = counts.into_bytes();
    told.extend_from_slice(config.statsd_prefix.bytes())?;
    let (flushes, every, reads) = (config.flushes, config.flush_every, config.reads);
    let numbers = format!(in alloc; " {flushes} {every} {reads}")?;
    told.extend_from_slice(numbers.as_bytes())?;
    Ok(told)
}

fn after(alloc: Global, words: &[u8], path: &[u8]) -> Result<Vec<u8>, NoMemory> {
    let mut told = words.to_vec(alloc)?;
    told.extend_from_slice(path)?;
    Ok(told)
}

fn told(alloc: Global, bytes: &[u8]) -> Result<Vec<u8>, NoMemory> {
    match read(alloc, bytes) {
        Ok(config) => told_config(alloc, &config),
        Err(BootFault::NotJson) => after(alloc, b"not json", b""),
        Err(BootFault::BadKey(path)) => after(alloc, b"bad key ", path.bytes()),
        Err(BootFault::BadTag(i)) => after(alloc, b"bad tag ", i.to_string(alloc)?.as_bytes()),
        Err(BootFault::BadBucket(path)) => after(alloc, b"bad bucket ", path.bytes()),
        Err(BootFault::OutOfRange(path)) => after(alloc, b"out of range ", path.bytes()),
        Err(BootFault::NoMemory) => Err(NoMemory),
    }
}

// Faulty bootstraps, each behind its fault: those of the table of values row by row, then several faults at once.
fn faulty() -> &'static str {
    r#"not json | [
not json | 
not json | {} {}
not json | {"a":1e400}
not json | {"a":"\ud800"}
not json | @128 [@@128 ]@
bad key top | @127 [@@127 ]@
bad key top | null
bad key top | "a"
bad key stats_config | {"stats_config":[]}
bad key stats_config.use_all_default_tags | {"stats_config":{"use_all_default_tags":1}}
bad key stats_config.stats_tags | {"stats_config":{"stats_tags":{}}}
out of range stats_config.stats_tags | {"stats_config":{"stats_tags":[@64 null,@null]}}
bad tag 0 | {"stats_config":{"stats_tags":[null]}}
bad tag 0 | {"stats_config":{"stats_tags":["a"]}}
bad tag 0 | {"stats_config":{"stats_tags":[{"fixed_value":"a"}]}}
bad tag 0 | {"stats_config":{"stats_tags":[{"tag_name":1,"fixed_value":"a"}]}}
bad tag 0 | {"stats_config":{"stats_tags":[{"tag_name":"","fixed_value":"a"}]}}
bad tag 0 | {"stats_config":{"stats_tags":[{"tag_name":"@256 x@","fixed_value":"a"}]}}
bad tag 1 | {"stats_config":{"stats_tags":[{"tag_name":"a","fixed_value":""},{"tag_name":"a b","fixed_value":"a"}]}}
bad tag 0 | {"stats_config":{"stats_tags":[{"tag_name":"é","fixed_value":"a"}]}}
bad tag 0 | {"stats_config":{"stats_tags":[{"tag_name":"a"}]}}
bad tag 0 | {"stats_config":{"stats_tags":[{"tag_name":"a","regex":null,"fixed_value":null}]}}
bad tag 0 | {"stats_config":{"stats_tags":[{"tag_name":"a","regex":"b","fixed_value":"c"}]}}
bad tag 0 | {"stats_config":{"stats_tags":[{"tag_name":"envoy.cluster_name","regex":"b","fixed_value":"c"}]}}
bad tag 0 | {"stats_config":{"stats_tags":[{"tag_name":"a","regex":""}]}}
bad tag 0 | {"stats_config":{"stats_tags":[{"tag_name":"a","regex":["b"]}]}}
bad tag 0 | {"stats_config":{"stats_tags":[{"tag_name":"a","regex":"@1025 x@"}]}}
bad tag 0 | {"stats_config":{"stats_tags":[{"tag_name":"a","regex":"x@512 é@"}]}}
bad tag 0 | {"stats_config":{"stats_tags":[{"tag_name":"a","fixed_value":false}]}}
bad tag 0 | {"stats_config":{"stats_tags":[{"tag_name":"a","fixed_value":"\t"}]}}
bad tag 0 | {"stats_config":{"stats_tags":[{"tag_name":"a","fixed_value":"@256 x@"}]}}
bad key stats_config.stats_matcher | {"stats_config":{"stats_matcher":true}}
bad key stats_config.stats_matcher | {"stats_config":{"stats_matcher":{}}}
bad key stats_config.stats_matcher | {"stats_config":{"stats_matcher":{"reject_all":null}}}
bad key stats_config.stats_matcher | {"stats_config":{"stats_matcher":{"reject_all":true,"inclusion_list":{}}}}
bad key stats_config.stats_matcher | {"stats_config":{"stats_matcher":{"exclusion_list":{},"inclusion_list":{}}}}
bad key stats_config.stats_matcher.reject_all | {"stats_config":{"stats_matcher":{"reject_all":"true"}}}
bad key stats_config.stats_matcher.exclusion_list | {"stats_config":{"stats_matcher":{"exclusion_list":[]}}}
bad key stats_config.stats_matcher.inclusion_list.patterns | {"stats_config":{"stats_matcher":{"inclusion_list":{"patterns":{}}}}}
out of range stats_config.stats_matcher.inclusion_list.patterns | {"stats_config":{"stats_matcher":{"inclusion_list":{"patterns":[@32 {"exact":"a"},@1]}}}}
bad key stats_config.stats_matcher.exclusion_list.patterns[0] | {"stats_config":{"stats_matcher":{"exclusion_list":{"patterns":[null]}}}}
bad key stats_config.stats_matcher.exclusion_list.patterns[1] | {"stats_config":{"stats_matcher":{"exclusion_list":{"patterns":[{"exact":"a"},{"ignore_case":true}]}}}}
bad key stats_config.stats_matcher.inclusion_list.patterns[0] | {"stats_config":{"stats_matcher":{"inclusion_list":{"patterns":[{"exact":1,"prefix":1}]}}}}
bad key stats_config.stats_matcher.inclusion_list.patterns[0].exact | {"stats_config":{"stats_matcher":{"inclusion_list":{"patterns":[{"exact":1}]}}}}
bad key stats_config.stats_matcher.inclusion_list.patterns[0].prefix | {"stats_config":{"stats_matcher":{"inclusion_list":{"patterns":[{"prefix":{},"ignore_case":1}]}}}}
out of range stats_config.stats_matcher.inclusion_list.patterns[0].suffix | {"stats_config":{"stats_matcher":{"inclusion_list":{"patterns":[{"suffix":"@1025 x@","ignore_case":1}]}}}}
out of range stats_config.stats_matcher.inclusion_list.patterns[0].contains | {"stats_config":{"stats_matcher":{"inclusion_list":{"patterns":[{"contains":"@1025 x@"}]}}}}
bad key stats_config.stats_matcher.inclusion_list.patterns[0].safe_regex | {"stats_config":{"stats_matcher":{"inclusion_list":{"patterns":[{"safe_regex":"a"}]}}}}
bad key stats_config.stats_matcher.inclusion_list.patterns[0].safe_regex | {"stats_config":{"stats_matcher":{"inclusion_list":{"patterns":[{"safe_regex":{"regex":null}}]}}}}
bad key stats_config.stats_matcher.inclusion_list.patterns[0].safe_regex.regex | {"stats_config":{"stats_matcher":{"inclusion_list":{"patterns":[{"safe_regex":{"regex":1}}]}}}}
out of range stats_config.stats_matcher.inclusion_list.patterns[0].safe_regex.regex | {"stats_config":{"stats_matcher":{"inclusion_list":{"patterns":[{"safe_regex":{"regex":"@1025 x@"}}]}}}}
bad key stats_config.stats_matcher.exclusion_list.patterns[0].ignore_case | {"stats_config":{"stats_matcher":{"exclusion_list":{"patterns":[{"exact":"a","ignore_case":true}]}}}}
bad key stats_config.stats_matcher.exclusion_list.patterns[0].ignore_case | {"stats_config":{"stats_matcher":{"exclusion_list":{"patterns":[{"exact":"a","ignore_case":0}]}}}}
bad key stats_config.histogram_bucket_settings | {"stats_config":{"histogram_bucket_settings":{}}}
out of range stats_config.histogram_bucket_settings | {"stats_config":{"histogram_bucket_settings":[@16 null,@null]}}
bad key stats_config.histogram_bucket_settings[0] | {"stats_config":{"histogram_bucket_settings":[null]}}
bad key stats_config.histogram_bucket_settings[0] | {"stats_config":{"histogram_bucket_settings":[{"buckets":[]}]}}
bad key stats_config.histogram_bucket_settings[0].match | {"stats_config":{"histogram_bucket_settings":[{"match":"a","buckets":[1]}]}}
bad key stats_config.histogram_bucket_settings[0].match.exact | {"stats_config":{"histogram_bucket_settings":[{"match":{"exact":1},"buckets":[]}]}}
out of range stats_config.histogram_bucket_settings[1].match.prefix | {"stats_config":{"histogram_bucket_settings":[{"match":{"exact":""},"buckets":[1]},{"match":{"prefix":"@1025 x@"}}]}}
bad bucket stats_config.histogram_bucket_settings[0].buckets | {"stats_config":{"histogram_bucket_settings":[{"match":{"exact":"a"}}]}}
bad bucket stats_config.histogram_bucket_settings[0].buckets | {"stats_config":{"histogram_bucket_settings":[{"match":{"exact":"a"},"buckets":{}}]}}
bad bucket stats_config.histogram_bucket_settings[0].buckets | {"stats_config":{"histogram_bucket_settings":[{"match":{"exact":"a"},"buckets":[]}]}}
bad bucket stats_config.histogram_bucket_settings[0].buckets | {"stats_config":{"histogram_bucket_settings":[{"match":{"exact":"a"},"buckets":[@64 1,@1]}]}}
bad bucket stats_config.histogram_bucket_settings[0].buckets | {"stats_config":{"histogram_bucket_settings":[{"match":{"exact":"a"},"buckets":[1,0]}]}}
bad bucket stats_config.histogram_bucket_settings[0].buckets | {"stats_config":{"histogram_bucket_settings":[{"match":{"exact":"a"},"buckets":[1000000000001]}]}}
bad bucket stats_config.histogram_bucket_settings[0].buckets | {"stats_config":{"histogram_bucket_settings":[{"match":{"exact":"a"},"buckets":[-1]}]}}
bad bucket stats_config.histogram_bucket_settings[0].buckets | {"stats_config":{"histogram_bucket_settings":[{"match":{"exact":"a"},"buckets":[1.0]}]}}
bad bucket stats_config.histogram_bucket_settings[0].buckets | {"stats_config":{"histogram_bucket_settings":[{"match":{"exact":"a"},"buckets":["1"]}]}}
bad bucket stats_config.histogram_bucket_settings[0].buckets | {"stats_config":{"histogram_bucket_settings":[{"match":{"exact":"a"},"buckets":[1,null]}]}}
bad bucket stats_config.histogram_bucket_settings[0].buckets | {"stats_config":{"histogram_bucket_settings":[{"match":{"exact":"a"},"buckets":[18446744073709551615]}]}}
bad bucket stats_config.histogram_bucket_settings[0].buckets | {"stats_config":{"histogram_bucket_settings":[{"match":{"exact":"a"},"buckets":[3,1,2,1]}]}}
bad key stats_sinks | {"stats_sinks":{}}
bad key stats_sinks[1].typed_config | {"stats_sinks":[3,{"name":"envoy.stat_sinks.statsd","typed_config":"a"}]}
bad key stats_sinks[0].typed_config.prefix | {"stats_sinks":[{"name":"envoy.stat_sinks.statsd","typed_config":{"prefix":1}}]}
bad key stats_sinks[0].typed_config.prefix | {"stats_sinks":[{"name":"envoy.stat_sinks.statsd","typed_config":{"prefix":"a b"}}]}
bad key stats_sinks[0].typed_config.prefix | {"stats_sinks":[{"name":"envoy.stat_sinks.statsd","typed_config":{"prefix":"@256 x@"}}]}
bad key stats_run | {"stats_run":[]}
bad key stats_run.scopes | {"stats_run":{"scopes":{}}}
out of range stats_run.scopes | {"stats_run":{"scopes":[@64 null,@null]}}
bad key stats_run.scopes[0] | {"stats_run":{"scopes":[null]}}
bad key stats_run.scopes[1] | {"stats_run":{"scopes":[{"label":"a"},{"prefix":1}]}}
bad key stats_run.scopes[0].label | {"stats_run":{"scopes":[{"label":1,"prefix":1}]}}
bad key stats_run.scopes[0].label | {"stats_run":{"scopes":[{"label":""}]}}
bad key stats_run.scopes[0].label | {"stats_run":{"scopes":[{"label":"a-b"}]}}
bad key stats_run.scopes[0].label | {"stats_run":{"scopes":[{"label":"@33 x@"}]}}
bad key stats_run.scopes[0].label | {"stats_run":{"scopes":[{"label":"root"}]}}
bad key stats_run.scopes[2].label | {"stats_run":{"scopes":[{"label":"a"},{"label":"b"},{"label":"a","prefix":1}]}}
bad key stats_run.scopes[0].prefix | {"stats_run":{"scopes":[{"label":"a","prefix":1}]}}
bad key stats_run.scopes[0].prefix | {"stats_run":{"scopes":[{"label":"a","prefix":"a b"}]}}
bad key stats_run.scopes[0].prefix | {"stats_run":{"scopes":[{"label":"a","prefix":"@255 x@."}]}}
bad key stats_run.flushes | {"stats_run":{"flushes":"1"}}
bad key stats_run.flushes | {"stats_run":{"flushes":1.0}}
bad key stats_run.flushes | {"stats_run":{"flushes":-0}}
bad key stats_run.flushes | {"stats_run":{"flushes":1e2}}
bad key stats_run.flushes | {"stats_run":{"flushes":18446744073709551616}}
bad key stats_run.flushes | {"stats_run":{"flushes":-9223372036854775809}}
out of range stats_run.flushes | {"stats_run":{"flushes":65}}
out of range stats_run.flushes | {"stats_run":{"flushes":-1}}
out of range stats_run.flushes | {"stats_run":{"flushes":18446744073709551615}}
out of range stats_run.flushes | {"stats_run":{"flushes":-9223372036854775808}}
bad key stats_run.reads | {"stats_run":{"reads":[]}}
out of range stats_run.reads | {"stats_run":{"reads":65}}
bad key stats_run.flush_every | {"stats_run":{"flush_every":{}}}
out of range stats_run.flush_every | {"stats_run":{"flush_every":0}}
out of range stats_run.flush_every | {"stats_run":{"flush_every":4194305}}
bad key stats_config | {"stats_run":0,"stats_sinks":0,"stats_config":0}
bad key stats_config.use_all_default_tags | {"stats_config":{"stats_tags":0,"use_all_default_tags":0}}
bad tag 0 | {"stats_config":{"histogram_bucket_settings":0,"stats_matcher":0,"stats_tags":[0]}}
bad key stats_config.stats_matcher | {"stats_config":{"histogram_bucket_settings":0,"stats_matcher":0},"stats_run":0}
bad bucket stats_config.histogram_bucket_settings[0].buckets | {"stats_config":{"histogram_bucket_settings":[{"match":{"exact":"a"}},0]},"stats_sinks":0}
bad key stats_sinks | {"stats_run":0,"stats_sinks":0}
bad key stats_run.scopes | {"stats_run":{"flush_every":0,"flushes":65,"reads":65,"scopes":0}}
out of range stats_run.flushes | {"stats_run":{"flush_every":0,"flushes":65,"reads":65}}
out of range stats_run.reads | {"stats_run":{"flush_every":0,"reads":65}}
bad key stats_run.flushes | {"stats_run":{"flushes":1,"flushes":"last"}}"#
}

// Bootstraps without a fault, each behind what it says.
fn faultless() -> &'static str {
    r#"ok 4 0 0 1 envoy 0 1000 0 | {}
ok 4 0 0 1 envoy 0 1000 0 | {"stats_config":null,"stats_sinks":null,"stats_run":null,"other":[null]}
ok 4 0 0 1 envoy 0 1000 0 | {"stats_config":{"use_all_default_tags":null,"stats_tags":null,"stats_matcher":null,"histogram_bucket_settings":null},"stats_run":{"scopes":null,"flushes":null,"reads":null,"flush_every":null}}
ok 0 0 0 1 envoy 0 1000 0 | {"stats_config":{"use_all_default_tags":false}}
ok 1 0 0 1 envoy 0 1000 0 | {"stats_config":{"use_all_default_tags":false,"stats_tags":[{"tag_name":"envoy.cluster_name"}]}}
ok 68 0 0 1 envoy 0 1000 0 | {"stats_config":{"stats_tags":[@63 {"tag_name":"a","fixed_value":""},@{"tag_name":"a","regex":"@1024 x@","other":1}]}}
ok 5 0 0 1 envoy 0 1000 0 | {"stats_config":{"stats_tags":[{"tag_name":"@255 x@","fixed_value":"@255 x@"}]}}
ok 4 0 0 1 envoy 0 1000 0 | {"stats_config":{"stats_matcher":{"reject_all":true,"exclusion_list":null}}}
ok 4 0 0 1 envoy 0 1000 0 | {"stats_config":{"stats_matcher":{"exclusion_list":{}}}}
ok 4 1 0 1 envoy 0 1000 0 | {"stats_config":{"stats_matcher":{"inclusion_list":{"patterns":[{"prefix":"cluster."}]}}}}
ok 4 32 0 1 envoy 0 1000 0 | {"stats_config":{"stats_matcher":{"exclusion_list":{"patterns":[@31 {"exact":"","ignore_case":false},@{"safe_regex":{"regex":"@1024 x@","google_re2":{}}}]}}}}
ok 4 0 16 1 envoy 0 1000 0 | {"stats_config":{"histogram_bucket_settings":[@15 {"match":{"exact":"a"},"buckets":[1000000000000,1]},@{"match":{"exact":"a","prefix":null},"buckets":[5]}]}}
ok 4 0 0 1 envoy 0 1000 0 | {"stats_sinks":[null,{"name":1},{"name":"other","typed_config":0}]}
ok 4 0 0 1 envoy 0 1000 0 | {"stats_sinks":[{"name":"envoy.stat_sinks.statsd"},{"name":"envoy.stat_sinks.statsd","typed_config":0}]}
ok 4 0 0 1 envoy 0 1000 0 | {"stats_sinks":[{"name":"envoy.stat_sinks.statsd","typed_config":{"prefix":""}}]}
ok 4 0 0 1 edge 0 1000 0 | {"stats_sinks":[{},{"name":"envoy.stat_sinks.statsd","typed_config":{"prefix":"edge"}}]}
ok 4 0 0 3 envoy 64 4194304 64 | {"stats_run":{"scopes":[{"label":"@32 x@","prefix":"@255 x@"},{"label":"Root","prefix":null}],"flushes":64,"reads":64,"flush_every":4194304}}
ok 4 0 0 1 envoy 0 1 0 | {"stats_run":{"flushes":0,"flush_every":1}}
ok 4 0 0 1 envoy 2 1000 0 | {"stats_run":{"flushes":"first","flushes":2}}
ok 5 2 1 3 edge 0 1000 0 | {"node":{"id":"edge-1","cluster":"edge"},"admin":{"address":{"socket_address":{"address":"127.0.0.1","port_value":9901}}},"static_resources":{"listeners":[],"clusters":[]},"stats_flush_interval":"5s","stats_config":{"use_all_default_tags":true,"stats_tags":[{"tag_name":"region","fixed_value":"eu-1"}],"stats_matcher":{"exclusion_list":{"patterns":[{"prefix":"cluster.api.internal."},{"safe_regex":{"regex":".*\\.debug"}}]}},"histogram_bucket_settings":[{"match":{"suffix":"_ms"},"buckets":[10,50,100,1000]}]},"stats_sinks":[{"name":"envoy.stat_sinks.statsd","typed_config":{"@type":"type.googleapis.com/envoy.config.metrics.v3.StatsdSink","address":{"socket_address":{"address":"127.0.0.1","port_value":8125}},"prefix":"edge"}}],"stats_run":{"scopes":[{"label":"web","prefix":"http.web."},{"label":"api","prefix":"cluster.api"}]}}"#
}

#[test]
fn faults_and_paths(rt: HostRuntime) -> Result<(), NoMemory> {
    let alloc = rt.alloc();
    for row in faulty().split('\n') {
        let (want, text) = row.split_once(" | ").unwrap_or(("", ""));
        let told = told(alloc, bytes_of(alloc, text)?.as_slice())?;
        assert!(rt; told.as_slice() == want.as_bytes(), "{row}");
    }
    Ok(())
}

#[test]
fn configurations(rt: HostRuntime) -> Result<(), NoMemory> {
    let alloc = rt.alloc();
    for row in faultless().split('\n') {
        let (want, text) = row.split_once(" | ").unwrap_or(("", ""));
        let told = told(alloc, bytes_of(alloc, text)?.as_slice())?;
        assert!(rt; told.as_slice() == want.as_bytes(), "{row}");
    }
    Ok(())
}

// A bootstrap with a list of so many members, each of which is its number between two texts.
fn with_list(
    alloc: Global,
    start: &str,
    count: u32,
    member: (&str, &str),
    end: &str,
) -> Result<Vec<u8>, NoMemory> {
    let mut bytes = start.as_bytes().to_vec(alloc)?;
    for i in 0..count {
        let comma = if i == 0 { "" } else { "," };
        let (before, after) = member;
        bytes.extend_from_slice(format!(in alloc; "{comma}{before}{i}{after}")?.as_bytes())?;
    }
    bytes.extend_from_slice(end.as_bytes())?;
    Ok(bytes)
}

// Lists whose members must differ.
#[test]
fn longest_lists(rt: HostRuntime) -> Result<(), NoMemory> {
    let alloc = rt.alloc();
    let start =
        r#"{"stats_config":{"histogram_bucket_settings":[{"match":{"exact":"a"},"buckets":["#;
    let refused = "bad bucket stats_config.histogram_bucket_settings[0].buckets";
    for (count, want) in [(64, "ok 4 0 1 1 envoy 0 1000 0"), (65, refused)] {
        let bounds = with_list(alloc, start, count, ("1", ""), "]}]}}")?;
        let told = told(alloc, &bounds)?;
        assert!(rt; told.as_slice() == want.as_bytes(), "{count}");
    }
    let start = r#"{"stats_run":{"scopes":["#;
    for (count, want) in [
        (64, "ok 4 0 0 65 envoy 0 1000 0"),
        (65, "out of range stats_run.scopes"),
    ] {
        let scopes = with_list(alloc, start, count, (r#"{"label":"s"#, r#""}"#), "]}}")?;
        let told = told(alloc, &scopes)?;
        assert!(rt; told.as_slice() == want.as_bytes(), "{count}");
    }
    Ok(())
}

fn text_of(rule: &Rule) -> &Txt {
    match rule {
        Rule::Regex(regex) => regex,
        Rule::Fixed(value) => value,
    }
}

// Adds two texts, parted by a blank.
fn tell_two(told: &mut Vec<u8>, one: &Txt, other: &Txt) -> Result<(), NoMemory> {
    told.extend_from_slice(one.bytes())?;
    told.push(b' ')?;
    told.extend_from_slice(other.bytes())?;
    Ok(())
}

fn tell_tags(told: &mut Vec<u8>, config: &Config) -> Result<(), NoMemory> {
    let paths = config.tag_paths.items().iter();
    for (spec, path) in config.tags.items().iter().zip(paths) {
        tell_two(told, &spec.tag_name, text_of(&spec.rule))?;
        told.push(b' ')?;
        told.extend_from_slice(path.bytes())?;
        told.push(b'\n')?;
    }
    Ok(())
}

fn tell_scopes(told: &mut Vec<u8>, config: &Config) -> Result<(), NoMemory> {
    for scope in config.scopes.items() {
        tell_two(told, &scope.label, &scope.prefix)?;
        told.push(b'\n')?;
    }
    Ok(())
}

// What a configuration holds, one part a line.
fn parts(alloc: Global, config: &Config) -> Result<Vec<u8>, NoMemory> {
    let mut told = Vec::new(alloc);
    tell_tags(&mut told, config)?;
    for setting in config.buckets.items() {
        tell_setting(alloc, &mut told, setting)?;
    }
    tell_scopes(&mut told, config)?;
    Ok(told)
}

fn tell_setting(alloc: Global, told: &mut Vec<u8>, setting: &BucketSpec) -> Result<(), NoMemory> {
    let text = match &setting.pattern {
        Pattern::Exact(text) => text,
        Pattern::Prefix(text) => text,
        Pattern::Suffix(text) => text,
        Pattern::Contains(text) => text,
        Pattern::SafeRegex(text) => text,
    };
    told.extend_from_slice(text.bytes())?;
    for bound in setting.bounds.items().iter() {
        told.push(b' ')?;
        told.extend_from_slice(bound.halves.to_string(alloc)?.as_bytes())?;
    }
    told.push(b'\n')?;
    Ok(())
}

const DEFAULTS: &str = r"envoy.response_code _rq(_(\d{3}))$ default_tags[0]
envoy.response_code_class _rq_(\d)xx$ default_tags[1]
envoy.cluster_name ^cluster\.((.*?)\.) default_tags[2]
envoy.http_conn_manager_prefix ^http\.((.*?)\.) default_tags[3]
";

#[test]
fn parts_of_the_usual_configuration(rt: HostRuntime) -> Result<(), NoMemory> {
    let alloc = rt.alloc();
    let config = usual(alloc)?;
    let told = parts(alloc, &config)?;
    assert!(rt; told.starts_with(DEFAULTS.as_bytes()));
    assert!(rt; told.ends_with(b"default_tags[3]\nroot \n"));
    Ok(())
}

const GIVEN: &str =
    r#"{"stats_config":{"stats_tags":[{"tag_name":"a","regex":"b"},{"tag_name":"c","fixed_value":"d e"},
    {"tag_name":"envoy.response_code_class"},{"tag_name":"envoy.cluster_name","fixed_value":""}],
    "histogram_bucket_settings":[{"match":{"contains":"ms"},"buckets":[100,10,1000000000000,50]}]},
    "stats_run":{"scopes":[{"label":"web","prefix":"http.web."},{"label":"a","prefix":"."},{"label":"b","prefix":"-"},{"label":"c"}]}}"#;

// Its parts behind the default tags.
const GIVEN_PARTS: &str = r"a b stats_config.stats_tags[0].regex
c d e 
envoy.response_code_class _rq_(\d)xx$ default_tags[1]
envoy.cluster_name  
ms 20 100 200 2000000000000
root 
web http.web
a 
b -
c 
";

#[test]
fn parts_of_a_configuration(rt: HostRuntime) -> Result<(), NoMemory> {
    let alloc = rt.alloc();
    let Ok(config) = read(alloc, GIVEN.as_bytes()) else {
        return Err(NoMemory);
    };
    let told = parts(alloc, &config)?;
    assert!(rt; told.starts_with(DEFAULTS.as_bytes()));
    assert!(rt; told.ends_with(GIVEN_PARTS.as_bytes()));
    assert!(rt; told.len() == DEFAULTS.len() + GIVEN_PARTS.len());
    Ok(())
}
