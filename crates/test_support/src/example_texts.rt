//! Files of `examples/` to the letter: `examples/try.sh texts` prints this file.

pub const EDGE_JSON: &str = r#"{
  "node": {"id": "edge-1", "cluster": "edge"},
  "admin": {"address": {"socket_address": {"address": "127.0.0.1", "port_value": 9901}}},
  "static_resources": {
    "listeners": [],
    "clusters": [{
      "name": "api",
      "type": "STRICT_DNS",
      "connect_timeout": "0.25s",
      "load_assignment": {"cluster_name": "api", "endpoints": []}
    }]
  },
  "stats_flush_interval": "5s",
  "stats_config": {
    "use_all_default_tags": true,
    "stats_tags": [{"tag_name": "region", "fixed_value": "eu-1"}],
    "stats_matcher": {"exclusion_list": {"patterns": [
      {"prefix": "cluster.api.internal."},
      {"safe_regex": {"regex": ".*\\.debug"}}
    ]}},
    "histogram_bucket_settings": [
      {"match": {"suffix": "_ms"}, "buckets": [10, 50, 100, 1000]}
    ]
  },
  "stats_sinks": [{
    "name": "envoy.stat_sinks.statsd",
    "typed_config": {
      "@type": "type.googleapis.com/envoy.config.metrics.v3.StatsdSink",
      "address": {"socket_address": {"address": "127.0.0.1", "port_value": 8125}},
      "prefix": "edge"
    }
  }],
  "stats_run": {"scopes": [
    {"label": "web", "prefix": "http.web."},
    {"label": "api", "prefix": "cluster.api"}
  ]}
}
"#;

pub const WEB_EVENTS: &str =
    r#"# What the first worker counted: requests of the listener, in the scope web, whose names begin with http.web.
inc web downstream_rq_total 120
inc web downstream_rq_2xx 112
inc web downstream_rq_5xx 3
inc root server.dropped_connections 2
inc web downstream_rq_total 8
# Connections that are open now: a gauge that is added to and subtracted from.
add web downstream_cx_active acc 9
sub web downstream_cx_active acc 4
# How long requests took, in milliseconds.
rec web downstream_rq_time_ms 7
rec web downstream_rq_time_ms 12
rec web downstream_rq_time_ms 12
rec web downstream_rq_time_ms 430
text root server.version 1.30 beta
"#;

pub const API_EVENTS: &str =
    r#"# What the second worker counted: requests to the cluster api, whose names begin with cluster.api.
inc api upstream_rq_200 118
inc api upstream_rq_503 2
set api membership_healthy never 3
# The matcher rejects these two.
inc api internal.upstream_rq 9
inc api retry.debug 1
inc root server.dropped_connections 1
# A cluster that came and went: its counter is shown in the flush behind which it is gone.
open canary cluster.canary
inc canary upstream_rq_200 6
release canary
# No scope has this label.
inc admin rq_total 1
"#;

pub const TAGS_JSON: &str = r#"{
  "stats_config": {
    "use_all_default_tags": false,
    "stats_tags": [
      {"tag_name": "site", "fixed_value": "north"},
      {"tag_name": "shop.route", "regex": "^shop\\.((\\w+)\\.)"}
    ],
    "stats_matcher": {"inclusion_list": {"patterns": [{"prefix": "shop."}]}},
    "histogram_bucket_settings": [
      {"match": {"suffix": ".seconds"}, "buckets": [1, 5, 30]},
      {"match": {"prefix": "shop."}, "buckets": [100, 1000]}
    ]
  },
  "stats_run": {"scopes": [{"label": "cart", "prefix": "shop.cart"}, {"label": "pay", "prefix": "shop.pay"}]}
}
"#;

pub const TAGS_EVENTS: &str =
    r#"# The route is taken out of the names as the tag shop.route, and each row has the tag site.
inc cart requests 41
inc pay requests 9
add pay waiting acc 2
rec pay seconds 3
rec pay seconds 40
rec cart bytes 512
# Only names that begin with shop. are admitted.
inc root other.requests 5
"#;

pub const EDGE_STATSD: &str = r#"# last
edge.cluster.api.upstream_rq_200:118|c
edge.cluster.api.upstream_rq_503:2|c
edge.cluster.canary.upstream_rq_200:6|c
edge.http.web.downstream_rq_2xx:112|c
edge.http.web.downstream_rq_5xx:3|c
edge.http.web.downstream_rq_total:128|c
edge.server.dropped_connections:3|c
edge.cluster.api.membership_healthy:3|g
edge.http.web.downstream_cx_active:5|g
# worker 1: 12 accepted, 0 dropped
# worker 2: 7 accepted, 3 dropped
"#;

pub const EDGE_ADMIN: &str = r#"# last
server.version: "1.30 beta"
cluster.api.membership_healthy: 3
cluster.api.upstream_rq_200: 118
cluster.api.upstream_rq_503: 2
cluster.canary.upstream_rq_200: 6
http.web.downstream_cx_active: 5
http.web.downstream_rq_2xx: 112
http.web.downstream_rq_5xx: 3
http.web.downstream_rq_total: 128
server.dropped_connections: 3
http.web.downstream_rq_time_ms: P0(7,7) P25(7.1,7.1) P50(12.5,12.5) P75(13,13) P90(440,440) P95(440,440) P99(440,440) P99.5(440,440) P99.9(440,440) P100(440,440)
# worker 1: 12 accepted, 0 dropped
# worker 2: 7 accepted, 3 dropped
"#;

pub const TAGS_STATSD: &str = r#"# last
envoy.shop.cart.requests:41|c
envoy.shop.pay.requests:9|c
envoy.shop.pay.waiting:2|g
# worker 1: 6 accepted, 1 dropped
"#;

pub const TAGS_PROM: &str = r#"# last
# TYPE envoy_shop_bytes histogram
envoy_shop_bytes_bucket{site="north",shop_route="cart",le="100"} 0
envoy_shop_bytes_bucket{site="north",shop_route="cart",le="1000"} 1
envoy_shop_bytes_bucket{site="north",shop_route="cart",le="+Inf"} 1
envoy_shop_bytes_sum{site="north",shop_route="cart"} 515
envoy_shop_bytes_count{site="north",shop_route="cart"} 1
# TYPE envoy_shop_requests counter
envoy_shop_requests{site="north",shop_route="cart"} 41
envoy_shop_requests{site="north",shop_route="pay"} 9
# TYPE envoy_shop_seconds histogram
envoy_shop_seconds_bucket{site="north",shop_route="pay",le="1"} 0
envoy_shop_seconds_bucket{site="north",shop_route="pay",le="5"} 1
envoy_shop_seconds_bucket{site="north",shop_route="pay",le="30"} 1
envoy_shop_seconds_bucket{site="north",shop_route="pay",le="+Inf"} 2
envoy_shop_seconds_sum{site="north",shop_route="pay"} 43.55
envoy_shop_seconds_count{site="north",shop_route="pay"} 2
# TYPE envoy_shop_waiting gauge
envoy_shop_waiting{site="north",shop_route="pay"} 2
# worker 1: 6 accepted, 1 dropped
"#;

pub const TAGS_SYMBOLS: &str = r#"# last
shop.cart.requests: 41
shop.pay.requests: 9
shop.pay.waiting: 2
shop.cart.bytes: P0(510,510) P25(520,520) P50(520,520) P75(520,520) P90(520,520) P95(520,520) P99(520,520) P99.5(520,520) P99.9(520,520) P100(520,520)
shop.pay.seconds: P0(3,3) P25(3.1,3.1) P50(3.1,3.1) P75(41,41) P90(41,41) P95(41,41) P99(41,41) P99.5(41,41) P99.9(41,41) P100(41,41)
# symbols
shop.cart.bytes histogram - 03010207 1=shop 2=cart 7=bytes
shop.cart.requests counter - 03010203 1=shop 2=cart 3=requests
shop.pay.requests counter - 03010403 1=shop 4=pay 3=requests
shop.pay.seconds histogram - 03010406 1=shop 4=pay 6=seconds
shop.pay.waiting gauge acc 03010405 1=shop 4=pay 5=waiting
# worker 1: 6 accepted, 1 dropped
"#;
