//! Several brokers over the same nodes: their marks, their joins, and whether they are equal.
use crate::script::assert_answered;

#[test]
fn replayed_join(rt: HostRuntime) {
    let rows = r#"{"count":2,"do":"brokers","nodes":["n0"]} => {"brokers":2}
@node0;@at1;@load;@p0of1;@end;} => @moved1;
{"do":"equal","left":0,"right":1} => {"equal":false}
{"do":"join","from":0,"into":1} => {"joined":1}
{"do":"equal","left":0,"right":1} => {"equal":true}
{"broker":1,"do":"marks"} => {"marks":[{"counter":1,"hash":1}]}"#;
    assert_answered(&rt, rt.alloc(), rows);
}

#[test]
fn joins(rt: HostRuntime) {
    let rows = r#"{"count":3,"do":"brokers","nodes":["n0","n1"]} => {"brokers":3}
@node0;@at4;@load;@p0of2;@end;} => {"mark":{"counter":4,"hash":1},"outcome":"Moved"}
@node1;@at1;@load;@p1of1;@end;} => @moved1;
@second0;@at2;@load;@p0of1;@end;} => @moved2;
@second1;@at2;@load;@p1of2;@end;} => @moved2;
{"broker":2,"do":"marks"} => {"marks":[{"counter":0,"hash":0},{"counter":0,"hash":0}]}
{"do":"join","from":0,"into":2} => {"joined":2}
{"do":"join","from":1,"into":2} => {"joined":2}
{"broker":2,"do":"marks"} => {"marks":[{"counter":4,"hash":1},{"counter":2,"hash":1}]}
{"broker":2,"do":"lookup","interval":"2024-01-01/2024-01-03","source":"wiki"} => {"pieces":[{"chunk":"@day;","interval":"@day;","parts":[0,1],"version":"v1"}]}
{"do":"join","from":2,"into":2} => {"joined":2}
{"do":"join","from":0,"into":1} => {"joined":1}
{"do":"equal","left":1,"right":2} => {"equal":true}
{"do":"equal","left":2,"right":0} => {"equal":false}
{"broker":0,"do":"marks"} => {"marks":[{"counter":4,"hash":1},{"counter":1,"hash":1}]}
{"do":"join","from":1,"into":0} => {"joined":0}
{"do":"equal","left":2,"right":0} => {"equal":true}"#;
    assert_answered(&rt, rt.alloc(), rows);
}

#[test]
fn conflicts(rt: HostRuntime) {
    let rows = r#"{"count":64,"do":"brokers","nodes":["n0","n1"]} => {"brokers":64}
@node0;@at1;@load;@p0of1;@end;} => @moved1;
@second0;@at1;@end;} => @moved1;
@second1;@at1;@end;} => @moved1;
{"do":"join","from":0,"into":1} => {"refused":"J2"}
{"do":"join","from":1,"into":0} => {"refused":"J2"}
{"do":"equal","left":0,"right":1} => {"equal":false}
{"broker":0,"do":"marks"} => {"marks":[{"counter":1,"hash":1},{"counter":0,"hash":0}]}
{"broker":1,"do":"lookup","interval":"2024-01-01/2024-01-03","source":"wiki"} => {"pieces":[]}
{"do":"equal","left":62,"right":63} => {"equal":true}"#;
    assert_answered(&rt, rt.alloc(), rows);
}
