//! Operations and items.

/// What the reader says of an operation after a tag `t` and a map `m`. The path is the rest after the
/// script's path.
pub const OPERATIONS: &str = r#"
BadField [2] <- 7
BadField [2].op <- {}
BadField [2].op <- {"op":7}
BadOp [2].op <- {"op":"Tag","zz":1}
BadOp [2].op <- {"op":"mem_alloc","name":"x","tag":"t"}
BadOp [2].op <- {"op":"load_uio","map":"m","entries":[]}
BadOp [2].op <- {"op":"dev_read","map":"m","off":0,"len":1}
good <- {"op":"tag","name":"x"}
BadField [2].name <- {"op":"tag","name":"t"}
BadField [2].name <- {"op":"tag","name":"m"}
BadField [2].name <- {"op":"tag","name":"M!"}
BadField [2].name <- {"op":"tag","name":""}
BadField [2].name <- {"op":"tag","name":"0a"}
BadField [2].name <- {"op":"tag","name":"_a"}
good <- {"op":"tag","name":"a_z09"}
good <- {"op":"tag","name":"abcdefghijklmnopqrstuvwxyz012345"}
BadField [2].name <- {"op":"tag","name":"abcdefghijklmnopqrstuvwxyz0123456"}
BadField [2].name <- {"op":"tag","name":7}
BadField [2].name <- {"op":"tag"}
good <- {"op":"tag","name":"x","parent":"t"}
UnknownName [2].parent <- {"op":"tag","name":"x","parent":"x"}
UnknownName [2].parent <- {"op":"tag","name":"x","parent":"m"}
BadField [2].parent <- {"op":"tag","name":"x","parent":"M!"}
BadField [2].parent <- {"op":"tag","name":"x","parent":null}
good <- {"op":"tag","name":"x","highaddr":"0xffffffffffffffff","maxsize":0}
BadField [2].highaddr <- {"op":"tag","name":"x","highaddr":"x","maxsize":"y"}
BadField [2].maxsize <- {"op":"tag","name":"x","maxsize":1.0}
good <- {"op":"tag","name":"x","alignment":4096,"boundary":65536,"lowaddr":"0xffffff"}
good <- {"op":"tag","name":"x","alignment":0,"boundary":3,"lowaddr":"0xffffffffffffffff"}
BadField [2].alignment <- {"op":"tag","name":"x","boundary":"x","alignment":-1}
BadField [2].boundary <- {"op":"tag","name":"x","lowaddr":"x","boundary":"x"}
BadField [2].lowaddr <- {"op":"tag","name":"x","highaddr":"x","lowaddr":1.5}
good <- {"op":"tag","name":"x","maxsegsz":0}
good <- {"op":"tag","name":"x","maxsegsz":4096}
good <- {"op":"tag","name":"x","maxsegsz":"0xffffffffffffffff"}
BadField [2].flags <- {"op":"tag","name":"x","maxsegsz":1,"flags":7}
good <- {"op":"tag","name":"x","maxsegsz":4095}
BadField [2].maxsegsz <- {"op":"tag","name":"x","maxsegsz":0.0}
BadField [2].maxsize <- {"op":"tag","name":"x","maxsegsz":1,"maxsize":"x"}
good <- {"op":"tag","name":"x","nsegments":0}
good <- {"op":"tag","name":"x","nsegments":4294967295}
BadField [2].nsegments <- {"op":"tag","name":"x","maxsegsz":"x","nsegments":4294967296}
BadField [2].maxsize <- {"op":"tag","name":"x","nsegments":4294967296,"maxsize":"x"}
BadFlag [2].flags[0] <- {"op":"tag","name":"x","flags":["WAIT"]}
good <- {"op":"tag","name":"x","flags":["ALLOCNOW","WAITOK","KEEP_PG_OFFSET","ALLOCNOW"]}
BadFlag [2].flags[1] <- {"op":"tag","name":"x","flags":["ALLOCNOW","NOWAIT"]}
BadFlag [2].flags[1] <- {"op":"tag","name":"x","flags":["ALLOCNOW",""]}
BadField [2].flags[1] <- {"op":"tag","name":"x","flags":["ALLOCNOW",1]}
BadField [2].flags <- {"op":"tag","name":"x","flags":"ALLOCNOW"}
good <- {"op":"tag_destroy","tag":"t"}
UnknownName [2].tag <- {"op":"tag_destroy","tag":"m"}
BadField [2].map <- {"op":"tag_destroy","map":"m"}
BadField [2].tag <- {"op":"tag_destroy"}
good <- {"op":"map","name":"n","tag":"t"}
UnknownName [2].tag <- {"op":"map","name":"n","tag":"n"}
UnknownName [2].tag <- {"op":"map","name":"n","tag":"m"}
BadField [2].name <- {"op":"map","name":"t","tag":"x"}
BadField [2].name <- {"op":"map","name":"N","tag":"x"}
good <- {"op":"map_destroy","map":"m"}
UnknownName [2].map <- {"op":"map_destroy","map":"t"}
good <- {"op":"load","map":"m","va":"0x1000","len":4096}
good <- {"op":"load","map":"m","va":"0x1000","len":1048576}
Limit(buffer) [2] <- {"op":"load","map":"m","va":"0x1000","len":1048577}
good <- {"op":"load","map":"m","va":"0x1fff","len":1}
good <- {"op":"load","map":"m","va":"0x1fff","len":2}
Limit(buffer) [2] <- {"op":"load","map":"m","va":"0x1001","len":"0xffffffffffffffff","then":7}
BadField [2].flags <- {"op":"load","map":"m","va":"0x1000","len":1048577,"flags":7}
UnknownName [2].map <- {"op":"load","map":"x","len":0}
BadField [2] <- {"op":"load","map":"m","len":"x"}
BadField [2].va <- {"op":"load","map":"m","va":"x","len":"x"}
BadField [2].len <- {"op":"load","map":"m","va":0}
UnknownName [2].mem <- {"op":"load","map":"m","mem":"x","len":0}
BadField [2].off <- {"op":"load","map":"m","va":0,"len":0,"off":0}
good <- {"op":"load","map":"m","va":0,"len":0,"flags":["WAITOK","NOWAIT","NOWAIT"],"then":[]}
BadFlag [2].flags[0] <- {"op":"load","map":"m","va":0,"len":0,"flags":["ALLOCNOW"],"then":7}
BadField [2].then <- {"op":"load","map":"m","va":0,"len":0,"then":7}
BadField [2].then[0] <- {"op":"load","map":"m","va":0,"len":0,"then":[7]}
good <- {"op":"unload","map":"m"}
BadField [2].len <- {"op":"unload","map":"m","len":0}
good <- {"op":"sync","map":"m","ops":[]}
good <- {"op":"sync","map":"m","ops":["PREREAD","POSTREAD","PREWRITE","POSTWRITE","PREREAD"]}
BadFlag [2].ops[0] <- {"op":"sync","map":"m","ops":["WAITOK"]}
BadFlag [2].ops[1] <- {"op":"sync","map":"m","ops":["PREREAD","preread"]}
BadField [2].ops[1] <- {"op":"sync","map":"m","ops":["PREREAD",null]}
BadField [2].ops <- {"op":"sync","map":"m"}
good <- {"op":"sync_range","map":"m","off":0,"len":"0xffffffffffffffff","ops":["PREREAD"]}
BadField [2].len <- {"op":"sync_range","map":"m","off":0,"ops":["x"]}
BadField [2].off <- {"op":"sync_range","map":"m","len":0,"ops":["x"]}
BadField [2].ops <- {"op":"sync_range","map":"m","off":0,"len":0}
good <- {"op":"cpu_read","va":0,"len":4096}
Limit(access) [2] <- {"op":"cpu_read","va":0,"len":4097}
BadField [2] <- {"op":"cpu_read","len":4097}
BadField [2].len <- {"op":"cpu_read","va":0}
BadField [2].va <- {"op":"cpu_read","va":[],"len":[]}
BadField [2].hex <- {"op":"cpu_read","va":0,"len":1,"hex":""}
BadField [2].len <- {"op":"cpu_read","va":0,"len":-0}
BadField [2].va <- {"op":"cpu_read","va":18446744073709551616,"len":1}
good <- {"op":"cpu_write","va":0,"hex":"0aFf"}
good <- {"op":"cpu_write","va":0,"hex":""}
BadField [2].hex <- {"op":"cpu_write","va":0,"hex":"0"}
BadField [2].hex <- {"op":"cpu_write","va":0,"hex":"0g"}
BadField [2].hex <- {"op":"cpu_write","va":0,"hex":10}
BadField [2] <- {"op":"cpu_write","va":0,"hex":7,"fill":0}
BadField [2] <- {"op":"cpu_write","va":0,"hex":7,"len":0}
BadField [2] <- {"op":"cpu_write","va":0,"hex":7,"fill":0,"len":0}
BadField [2] <- {"op":"cpu_write","va":0,"len":"x"}
BadField [2] <- {"op":"cpu_write","va":0}
BadField [2].len <- {"op":"cpu_write","va":0,"fill":255}
BadField [2].fill <- {"op":"cpu_write","va":0,"fill":256,"len":"x"}
BadField [2].fill <- {"op":"cpu_write","va":0,"fill":"x","len":0}
good <- {"op":"cpu_write","va":0,"fill":"0xff","len":4096}
Limit(access) [2] <- {"op":"cpu_write","va":0,"fill":0,"len":4097}
Limit(access) [2] <- {"op":"cpu_write","va":0,"fill":0,"len":"0xffffffffffffffff"}
BadField [2] <- {"op":"cpu_write","hex":"0"}
good <- {"op":"await","map":"m"}
UnknownName [2].map <- {"op":"await","map":"n"},{"op":"map","name":"n","tag":"t"}
BadField [2].tag <- {"op":"await","map":"m","tag":"t"}
BadField [2].map <- {"op":"await","map":["m"]}
BadField [4].map <- {"op":"map","name":"n","tag":"t"},{"op":"await","map":"n"},{"op":"await","map":"N"}
"#;

/// What the reader says of the items of a load of no bytes after a tag `t` and a map `m`. The path is the
/// rest after the path of the items.
pub const ITEMS: &str = r#"
good <- {"op":"sync","map":"m","ops":["PREWRITE"]},{"op":"dev_read","map":"m","off":0,"len":4096}
BadField [1] <- {"op":"sync","map":"m","ops":[]},7
BadOp [0].op <- {"op":"load","map":"m","va":0,"len":0}
BadOp [0].op <- {"op":"load_mbuf","map":"m","entries":[]}
BadOp [0].op <- {"op":"cpu_read","va":0,"len":0}
BadOp [0].op <- {"op":"x","zz":1}
BadField [0].op <- {"zz":1}
UnknownName [0].map <- {"op":"sync","map":"t","ops":[]}
BadFlag [0].ops[0] <- {"op":"sync","map":"m","ops":["WAITOK"]}
BadField [0].flags <- {"op":"sync","map":"m","ops":[],"flags":[]}
good <- {"op":"sync_range","map":"m","off":1,"len":2,"ops":["POSTREAD"]}
BadField [0].len <- {"op":"sync_range","map":"m","off":1,"ops":[]}
good <- {"op":"dev_read","map":"m","off":"0xffffffffffffffff","len":0}
BadField [0].off <- {"op":"dev_read","map":"m","len":0}
Limit(access) [0] <- {"op":"dev_read","map":"m","off":0,"len":4097}
good <- {"op":"dev_write","map":"m","off":0,"hex":"ff"}
good <- {"op":"dev_write","map":"m","off":0,"fill":1,"len":4096}
Limit(access) [0] <- {"op":"dev_write","map":"m","off":0,"fill":1,"len":4097}
BadField [0] <- {"op":"dev_write","map":"m","off":0,"hex":"ff","len":1}
BadField [0] <- {"op":"dev_write","map":"m","off":0,"len":1}
BadField [0].off <- {"op":"dev_write","map":"m","hex":"ff"}
BadField [0].hex <- {"op":"dev_write","map":"m","off":0,"hex":"f"}
"#;

/// What the reader says of operations that are repeated after a tag `t` and a map `m`. The path is the rest
/// after the script's path.
pub const REPEATED: &str = r#"
good <- 4094 times {"op":"await","map":"m"}
Limit(steps) [4096] <- 4095 times {"op":"await","map":"m"}
good <- 2047 times {"op":"load","map":"m","va":0,"len":4096,"then":[{"op":"sync","map":"m","ops":[]}]}
Limit(steps) [2049] <- 2048 times {"op":"load","map":"m","va":0,"len":4096,"then":[{"op":"sync","map":"m","ops":[]}]}
BadField [2].then[1] <- 1 times {"op":"load","map":"m","va":0,"len":4096,"then":[{"op":"sync","map":"m","ops":[]},7]}
good <- 16 times {"op":"load","map":"m","va":0,"len":1048576}
Limit(loaded) [18] <- 17 times {"op":"load","map":"m","va":0,"len":1048576}
good <- 16 times {"op":"load_mbuf","map":"m","entries":[{"va":0,"len":524287},{"va":0,"len":524288}]},{"op":"load_bio","map":"m","bio":{"kind":"unmapped","frames":[],"off":0,"len":1}}
Limit(loaded) [34] <- 17 times {"op":"load_mbuf","map":"m","entries":[{"va":0,"len":524287},{"va":0,"len":524288}]},{"op":"load_bio","map":"m","bio":{"kind":"unmapped","frames":[],"off":0,"len":1}}
Limit(loaded) [18] <- 17 times {"op":"load_vector","map":"m","entries":[{"va":0,"len":1048575},{"va":0,"len":1}],"then":[]}
good <- 256 times {"op":"cpu_read","va":0,"len":4096}
good <- 256 times {"op":"cpu_read","va":0,"len":4096},{"op":"cpu_read","va":0,"len":0}
Limit(reads) [258] <- 257 times {"op":"cpu_read","va":0,"len":4096}
good <- 128 times {"op":"load","map":"m","va":0,"len":0,"then":[{"op":"dev_read","map":"m","off":0,"len":4096}]},{"op":"cpu_read","va":0,"len":4096}
Limit(reads) [258].then[0] <- 129 times {"op":"load","map":"m","va":0,"len":0,"then":[{"op":"dev_read","map":"m","off":0,"len":4096}]},{"op":"cpu_read","va":0,"len":4096}
"#;
