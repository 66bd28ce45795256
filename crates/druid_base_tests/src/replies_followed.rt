use crate::script::{assert_answered, assert_too_many};

#[test]
fn deltas(rt: HostRuntime) {
    let rows = r#"@brokers; => {"brokers":1}
@node0;@at4;@load;@p0of1;@end;} => {"mark":{"counter":4,"hash":1},"outcome":"Moved"}
@node0;@to;6@from;4@by;@load2;@v2;,@load;@p1of1;@end;} => {"mark":{"counter":6,"hash":1},"outcome":"Moved"}
@lookup; => {"pieces":[{"chunk":"@day;","interval":"@morning;","parts":[0,1],"version":"v1"},{"chunk":"@noon;","interval":"@noon;","parts":[0],"version":"v2"},{"chunk":"@day;","interval":"@rest;","parts":[0,1],"version":"v1"}]}
@node0;@to;6@from;4@by;@load2;@v2;,@load;@p1of1;@end;} => {"mark":{"counter":6,"hash":1},"outcome":"AlreadyHave"}
@node0;@to;8@from;5@by;@load;@p1of1;,@drop2;@v2;,@drop;@p1of1;@end;} => {"mark":{"counter":8,"hash":1},"outcome":"Moved"}
@lookup; => {"pieces":[{"chunk":"@day;","interval":"@day;","parts":[0],"version":"v1"}]}
@node0;@to;10@from;9@by;@load2;@v2;@end;} => {"refused":"A2"}
@node0;@to;10@from;8@by;@load;@p1of1;,@drop2;@v2;@end;} => {"refused":"A4"}
@node0;@to;9@from;8@by;@load;@p0of1;@end;} => {"refused":"A4"}
@node0;@to;9@from;8@by;@drop;@p0of2;@end;} => {"refused":"A4"}
@node0;@to;8@from;8@by;@end;} => {"mark":{"counter":8,"hash":1},"outcome":"AlreadyHave"}
@lookup; => {"pieces":[{"chunk":"@day;","interval":"@day;","parts":[0],"version":"v1"}]}
@node0;@to;9@from;8@by;@drop;@p0of1;@end;} => {"mark":{"counter":9,"hash":1},"outcome":"Moved"}
@lookup; => {"pieces":[]}"#;
    assert_answered(&rt, rt.alloc(), rows);
}

#[test]
fn empty_deltas(rt: HostRuntime) {
    let rows = r#"@brokers; => {"brokers":1}
@node0;@at1;@load;@p0of1;@end;} => @moved1;
@lookup; => {"pieces":[{"chunk":"@day;","interval":"@day;","parts":[0],"version":"v1"}]}
@node0;@to;1@from;1@by;@end;} => {"mark":{"counter":1,"hash":1},"outcome":"AlreadyHave"}
@node0;@to;2@from;2@by;@end;} => {"refused":"A2"}"#;
    assert_answered(&rt, rt.alloc(), rows);
}

#[test]
fn snapshots_and_incarnations(rt: HostRuntime) {
    let rows = r#"@brokers; => {"brokers":1}
@node0;@at1;@begun;} => {"mark":{"counter":0,"hash":0},"outcome":"AskWhole"}
@node0;@to;1@from;0@by;@load;@p0of1;@end;} => {"refused":"A3"}
@node0;{"counter":{"counter":900,"hash":1},"from":null,"requests":[@load;@p0of1;@end;} => {"mark":{"counter":900,"hash":1},"outcome":"Moved"}
@node0;{"counter":{"counter":0,"hash":2},"from":null,"requests":[@end;} => {"mark":{"counter":0,"hash":2},"outcome":"Moved"}
@lookup; => {"pieces":[]}
@node0;@to;901@from;900@by;@load2;@v2;@end;} => {"refused":"A3"}
@node0;{"counter":{"counter":901,"hash":1},"from":null,"requests":[@load;@p0of1;@end;} => {"mark":{"counter":0,"hash":2},"outcome":"AlreadyHave"}
@node0;{"counter":{"counter":0,"hash":2},"from":null,"requests":[@load;@p0of1;@end;} => {"refused":"A5"}
@node0;@at1;@begun;} => {"mark":{"counter":0,"hash":2},"outcome":"AskWhole"}
@lookup; => {"pieces":[]}"#;
    assert_answered(&rt, rt.alloc(), rows);
}

#[test]
fn lengths_of_deltas(rt: HostRuntime) {
    let rows = r#"@brokers; => {"brokers":1}
@node0;@to;6@from;4@by;@load;@p0of1;@end;} => {"refused":"Y3"}
@node0;@to;4@from;5@by;@load;@p0of1;@end;} => {"refused":"Y3"}
@node0;{"counter":{"counter":5,"hash":2},"from":{"counter":4,"hash":1},"requests":[@load;@p0of1;@end;} => {"refused":"Y3"}
{"broker":0,"do":"reply","node":2,"reply":@to;6@from;4@by;@end;} => {"refused":"Y3"}
{"broker":0,"do":"reply","node":2,"reply":@to;4@from;4@by;@end;} => {"refused":"A1"}
@node0;{"counter":{"counter":1,"hash":1},"from":{"counter":0,"hash":0},"requests":[@load;@p0of1;@end;} => {"refused":"Y2"}"#;
    assert_answered(&rt, rt.alloc(), rows);
}

#[test]
fn too_many_changes(rt: HostRuntime) {
    assert_too_many(&rt, rt.alloc(), "@to;1@from;0@by;", 1_000);
}

// A page is no snapshot: nothing moves. One that is not full and not the last, one without how many there are, and one that is a
// reset as well are none.
#[test]
fn pages_of_a_snapshot(rt: HostRuntime) {
    let rows = r#"@brokers; => {"brokers":1}
@node0;@last1;@load;@p0of1;@end;} => {"mark":{"counter":0,"hash":0},"outcome":"AskPages"}
@node0;@page1;@load;@p0of1;@end;} => {"refused":"Y7"}
@node0;@last1;@load;@p0of1;,@load;@p0of1;@end;} => {"refused":"Y7"}
@node0;{"counter":{"counter":1,"hash":1},"from":null,"page":1,"requests":[@load;@p0of1;@end;} => {"refused":"Y2"}
@node0;@last1;@load;@p0of1;@begun;} => {"refused":"Y2"}"#;
    assert_answered(&rt, rt.alloc(), rows);
}
