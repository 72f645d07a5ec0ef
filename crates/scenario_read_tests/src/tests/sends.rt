//! Sends and their clusters.

/// What the reader says of a send after a tag `t` and a map `m`. The path is the rest after the script's
/// path.
pub const SENDS: &str = r#"
good <- {"op":"send","map":"m","entries":[],"clusters":[]}
good <- {"op":"send","map":"m","entries":[{"va":"0x1000","len":8}],"clusters":["0x2000",12288,0],"then":[{"op":"sync","map":"m","ops":["PREWRITE"]}]}
BadField [2].flags <- {"op":"send","map":"x","entries":7,"clusters":7,"flags":[]}
BadField [2].map <- {"op":"send","entries":7,"clusters":7}
UnknownName [2].map <- {"op":"send","map":"t","entries":7,"clusters":7}
BadField [2].entries <- {"op":"send","map":"m","clusters":7}
BadField [2].entries[0].len <- {"op":"send","map":"m","entries":[{"va":0}],"clusters":7}
BadField [2].clusters <- {"op":"send","map":"m","entries":[],"then":7}
BadField [2].clusters <- {"op":"send","map":"m","entries":[],"clusters":{}}
BadField [2].clusters[1] <- {"op":"send","map":"m","entries":[],"clusters":[0,"4096"]}
BadField [2].clusters[1] <- {"op":"send","map":"m","entries":[],"clusters":[0,{"va":4096}]}
BadField [2].clusters[1] <- {"op":"send","map":"m","entries":[],"clusters":[4096,6144,4096]}
BadField [2].clusters[2] <- {"op":"send","map":"m","entries":[],"clusters":[4096,8192,"0x1000",1]}
BadField [2].clusters[1] <- {"op":"send","map":"m","entries":[{"va":8191,"len":1}],"clusters":[0,4096,4097]}
BadField [2].clusters[0] <- {"op":"send","map":"m","entries":[{"va":16,"len":1},{"va":4095,"len":2}],"clusters":[4096]}
good <- {"op":"send","map":"m","entries":[{"va":8192,"len":1},{"va":4095,"len":1}],"clusters":[4096]}
good <- {"op":"send","map":"m","entries":[{"va":5000,"len":0}],"clusters":[4096]}
BadField [2].clusters[1] <- {"op":"send","map":"m","entries":[{"va":4096,"len":1}],"clusters":[8192,4096,8192,1]}
BadField [2].clusters[0] <- {"op":"send","map":"m","entries":[{"va":0,"len":"0xffffffffffffffff"}],"clusters":["0xfffffffffffff000"]}
BadField [2].clusters[1] <- {"op":"send","map":"m","entries":[{"va":"0xffffffffffffffff","len":2}],"clusters":[0,"0xfffffffffffff000"]}
good <- {"op":"send","map":"m","entries":[{"va":"0xffffffffffffffff","len":2}],"clusters":[0,"0xffffffffffffe000"]}
good <- {"op":"send","map":"m","entries":[{"va":0,"len":1048576}],"clusters":[]}
Limit(buffer) [2] <- {"op":"send","map":"m","entries":[{"va":0,"len":1048576},{"va":0,"len":1}],"clusters":[],"then":7}
BadField [2].clusters[0] <- {"op":"send","map":"m","entries":[{"va":0,"len":1048577}],"clusters":[0]}
BadField [2].then <- {"op":"send","map":"m","entries":[],"clusters":[],"then":7}
BadOp [2].then[0].op <- {"op":"send","map":"m","entries":[],"clusters":[],"then":[{"op":"send","map":"m","entries":[],"clusters":[]}]}
"#;

/// What the reader says of sends of a mebibyte, each of which counts as two loads.
pub const REPEATED: &str = r#"
good <- 8 times {"op":"send","map":"m","entries":[{"va":0,"len":1048576}],"clusters":[]}
Limit(loaded) [10] <- 9 times {"op":"send","map":"m","entries":[{"va":0,"len":1048576}],"clusters":[],"then":[]}
Limit(loaded) [10] <- 9 times {"op":"send","map":"m","entries":[{"va":0,"len":1048576}],"clusters":["0x100000"]}
"#;

/// What the reader says of the clusters of a send. With one element more than the limit the list is refused,
/// whatever its elements are.
pub const CLUSTERS: &str = r#"
BadField [2].clusters[1] <- 4096 times 0
Limit(entries) [2].clusters <- 4097 times 0
Limit(entries) [2].clusters <- 4097 times []
"#;
