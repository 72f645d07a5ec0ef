//! Rings of descriptors, what is posted to them, and kicks of their devices.

/// What the reader says of an operation after a tag `t`, a map `m`, a memory `q` and a ring `r` in it. The
/// path is the rest after the script's path.
pub const RINGS: &str = r#"
good <- {"op":"ring","name":"s","mem":"q","slots":256}
good <- {"op":"ring","name":"s","mem":"q","slots":0}
good <- {"op":"ring","name":"s","mem":"q","slots":"0xffffffff"}
BadField [4].slots <- {"op":"ring","name":"s","mem":"q","slots":4294967296}
BadField [4].slots <- {"op":"ring","name":"s","mem":"q","slots":1.0}
BadField [4].slots <- {"op":"ring","name":"s","mem":"q"}
BadField [4].name <- {"op":"ring","mem":"x","slots":"x"}
BadField [4].name <- {"op":"ring","name":"r","mem":"x","slots":"x"}
BadField [4].name <- {"op":"ring","name":"q","mem":"q","slots":4}
BadField [4].name <- {"op":"ring","name":"R","mem":"q","slots":4}
BadField [4].mem <- {"op":"ring","name":"s","slots":"x"}
BadField [4].mem <- {"op":"ring","name":"s","mem":"Q","slots":"x"}
UnknownName [4].mem <- {"op":"ring","name":"s","mem":"m","slots":"x"}
UnknownName [4].mem <- {"op":"ring","name":"s","mem":"r","slots":4}
UnknownName [4].mem <- {"op":"ring","name":"s","mem":"s","slots":4}
BadField [4].off <- {"op":"ring","name":"s","mem":"q","slots":4,"off":0}
good <- {"op":"ring_post","ring":"r","slot":0,"map":"m","off":0,"len":0,"kind":0}
good <- {"op":"ring_post","ring":"r","slot":4294967295,"map":"q","off":"0xffffffffffffffff","len":"0xffffffffffffffff","kind":255,"fill":255}
BadField [4].ring <- {"op":"ring_post","slot":"x","map":"m","off":0,"len":1,"kind":1}
BadField [4].ring <- {"op":"ring_post","ring":"R","slot":"x","map":"m","off":0,"len":1,"kind":1}
UnknownName [4].ring <- {"op":"ring_post","ring":"q","slot":"x","map":"m","off":0,"len":1,"kind":1}
UnknownName [4].ring <- {"op":"ring_post","ring":"s","slot":0,"map":"m","off":0,"len":1,"kind":1},{"op":"ring","name":"s","mem":"q","slots":4}
BadField [4].slot <- {"op":"ring_post","ring":"r","map":"x","off":0,"len":1,"kind":1}
BadField [4].slot <- {"op":"ring_post","ring":"r","slot":4294967296,"map":"x","off":0,"len":1,"kind":1}
BadField [4].map <- {"op":"ring_post","ring":"r","slot":0,"off":"x","len":1,"kind":1}
UnknownName [4].map <- {"op":"ring_post","ring":"r","slot":0,"map":"r","off":"x","len":1,"kind":1}
BadField [4].off <- {"op":"ring_post","ring":"r","slot":0,"map":"m","len":"x","kind":1}
BadField [4].off <- {"op":"ring_post","ring":"r","slot":0,"map":"m","off":18446744073709551616,"len":"x","kind":1}
BadField [4].len <- {"op":"ring_post","ring":"r","slot":0,"map":"m","off":0,"kind":256}
BadField [4].len <- {"op":"ring_post","ring":"r","slot":0,"map":"m","off":0,"len":-1,"kind":256}
BadField [4].kind <- {"op":"ring_post","ring":"r","slot":0,"map":"m","off":0,"len":1,"fill":256}
BadField [4].kind <- {"op":"ring_post","ring":"r","slot":0,"map":"m","off":0,"len":1,"kind":256,"fill":256}
BadField [4].fill <- {"op":"ring_post","ring":"r","slot":0,"map":"m","off":0,"len":1,"kind":1,"fill":256}
BadField [4].fill <- {"op":"ring_post","ring":"r","slot":0,"map":"m","off":0,"len":1,"kind":1,"fill":null}
BadField [4].hex <- {"op":"ring_post","ring":"r","slot":0,"map":"m","off":0,"len":1,"kind":2,"hex":"00"}
good <- {"op":"kick","ring":"r","count":1}
good <- {"op":"kick","ring":"r","count":4091}
Limit(steps) [4] <- {"op":"kick","ring":"r","count":4092}
Limit(steps) [4] <- {"op":"kick","ring":"r","count":4096}
BadField [4].count <- {"op":"kick","ring":"r","count":4097}
BadField [4].count <- {"op":"kick","ring":"r","count":0}
BadField [4].count <- {"op":"kick","ring":"r","count":"1"}
BadField [4].count <- {"op":"kick","ring":"r"}
BadField [4].ring <- {"op":"kick","count":0}
UnknownName [4].ring <- {"op":"kick","ring":"q","count":0}
BadField [4].then <- {"op":"kick","ring":"r","count":1,"then":[]}
Limit(steps) [5] <- {"op":"kick","ring":"r","count":4091},{"op":"await","map":"m"}
good <- {"op":"kick","ring":"r","count":4090},{"op":"await","map":"m"}
Limit(steps) [5] <- {"op":"kick","ring":"r","count":4089},{"op":"kick","ring":"r","count":2}
good <- {"op":"kick","ring":"r","count":4089},{"op":"kick","ring":"r","count":1}
BadOp [4].op <- {"op":"ring_step","ring":"r"}
BadOp [4].op <- {"op":"ring_destroy","ring":"r"}
BadField [4].name <- {"op":"tag","name":"r"}
UnknownName [4].tag <- {"op":"map","name":"s","tag":"r"}
UnknownName [4].map <- {"op":"map_destroy","map":"r"}
UnknownName [4].map <- {"op":"load","map":"r","va":0,"len":0}
UnknownName [4].mem <- {"op":"load","map":"q","mem":"r","len":0}
UnknownName [4].mem <- {"op":"dmamem_free","mem":"r"}
BadOp [4].then[0].op <- {"op":"load","map":"m","va":0,"len":0,"then":[{"op":"ring_step","ring":"r"}]}
BadOp [4].then[1].op <- {"op":"load","map":"m","va":0,"len":0,"then":[{"op":"sync","map":"m","ops":[]},{"op":"ring_step","zz":1}]}
BadOp [4].then[0].op <- {"op":"load","map":"m","va":0,"len":0,"then":[{"op":"kick","ring":"r","count":1}]}
UnknownName [4].then[0].map <- {"op":"load","map":"m","va":0,"len":0,"then":[{"op":"sync","map":"r","ops":[]}]}
"#;

/// What the reader says of repeated operations of a ring: what is posted and what a device fetches counts for
/// no limit except that on steps.
pub const REPEATED: &str = r#"
good <- 4092 times {"op":"ring_post","ring":"r","slot":0,"map":"m","off":0,"len":4096,"kind":1}
Limit(steps) [4096] <- 4093 times {"op":"ring_post","ring":"r","slot":0,"map":"m","off":0,"len":4096,"kind":1}
good <- 2046 times {"op":"kick","ring":"r","count":1}
Limit(steps) [2050] <- 2047 times {"op":"kick","ring":"r","count":1}
"#;
