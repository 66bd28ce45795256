//! Configs of clusters.
use crate::marks::{assert_call, begin, end};
use druid_serve_config::{ConfigFault, Part, bad_field_in, names_in, read_config};
use std::alloc::Global;
use std::process::Abort;

const CONFIG: &[u8] =
    b"{\"brokers\":[{\"address\":\"127.0.0.1:9001\",\"workers\":1}],\"connections\":0,\"kept\":10,\"nodes\":[{\"address\":\"127.0.0.1:9002\",\"folder\":\"f\",\"loads\":[\"a.seg\"],\"name\":\"n0\",\"workers\":1}],\"queries\":[{\"broker\":0,\"query\":{\"a\":[1,null]}}],\"turns\":1}";

fn configs(rt: &impl Abort, alloc: Global) {
    begin(rt, alloc);
    let read = end(rt, alloc, read_config(alloc, CONFIG));
    assert_call(
        rt,
        "read_config",
        match &read {
            Ok(config) => config.nodes().len() == 1,
            Err(fault) => *fault == ConfigFault::Memory,
        },
    );
    begin(rt, alloc);
    let field = end(rt, alloc, bad_field_in(alloc, CONFIG));
    assert_call(
        rt,
        "bad_field_in",
        match &field {
            Ok(field) => field.is_none(),
            Err(_) => true,
        },
    );
    let config = read_config(alloc, CONFIG).expect(rt, "a config");
    begin(rt, alloc);
    let names = end(rt, alloc, names_in(alloc, config.nodes()));
    assert_call(
        rt,
        "names_in",
        match &names {
            Ok(names) => names.len() == 1,
            Err(_) => true,
        },
    );
}

fn parts(rt: &impl Abort, alloc: Global) {
    let config = read_config(alloc, CONFIG).expect(rt, "a config");
    begin(rt, alloc);
    let part = end(rt, alloc, Part::named(alloc, &config, "n0,broker:0"));
    assert_call(
        rt,
        "Part::named",
        match &part {
            Ok(Some(part)) => part.has_broker(0) && !part.has_broker(1),
            Ok(None) => false,
            Err(_) => true,
        },
    );
}

#[test]
fn of_configs(rt: HostRuntime) {
    configs(&rt, rt.alloc());
    parts(&rt, rt.alloc());
}
