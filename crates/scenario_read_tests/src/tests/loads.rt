//! Loads of vectors, chains and bios.

/// What the reader says of a load of a vector, a chain or a bio after a tag `t` and a map `m`, for a driver
/// whose one page has the frame 16. The path is the rest after the script's path.
pub const LOADS: &str = r#"
good <- {"op":"load_vector","map":"m","entries":[]}
good <- {"op":"load_vector","map":"m","entries":[{"va":"0x1000","len":8},{"len":0,"va":0}],"flags":["WAITOK","NOWAIT"],"then":[]}
good <- {"op":"load_vector","map":"m","entries":[{"va":0,"len":1}],"then":[{"op":"dev_read","map":"m","off":0,"len":1}]}
BadField [2].entries <- {"op":"load_vector","map":"m"}
BadField [2].entries <- {"op":"load_vector","map":"m","entries":{}}
BadField [2].entries <- {"op":"load_vector","map":"m","entries":7,"flags":7}
BadField [2].entries[1] <- {"op":"load_vector","map":"m","entries":[{"va":0,"len":0},7]}
BadField [2].entries[0].off <- {"op":"load_vector","map":"m","entries":[{"va":0,"off":0}]}
BadField [2].entries[0].va <- {"op":"load_vector","map":"m","entries":[{"len":"x"}]}
BadField [2].entries[0].va <- {"op":"load_vector","map":"m","entries":[{"va":"x","len":"x"}]}
BadField [2].entries[0].len <- {"op":"load_vector","map":"m","entries":[{"va":0}]}
BadField [2].entries[0].len <- {"op":"load_vector","map":"m","entries":[{"va":0,"len":1.0},7]}
BadField [2].len <- {"op":"load_vector","map":"m","len":0}
BadField [2].va <- {"op":"load_vector","map":"m","entries":[],"va":0}
BadField [2].bio <- {"op":"load_vector","map":"m","entries":[],"bio":{}}
BadField [2].mem <- {"op":"load_vector","map":"m","entries":[],"mem":"x"}
UnknownName [2].map <- {"op":"load_vector","map":"t","entries":7}
BadField [2].map <- {"op":"load_vector","entries":7}
BadFlag [2].flags[0] <- {"op":"load_vector","map":"m","entries":[],"flags":["ALLOCNOW"],"then":7}
BadField [2].then <- {"op":"load_vector","map":"m","entries":[],"then":7}
BadField [2].then[0] <- {"op":"load_vector","map":"m","entries":[],"then":[7]}
BadOp [2].then[0].op <- {"op":"load_vector","map":"m","entries":[],"then":[{"op":"load_vector","map":"m","entries":[]}]}
good <- {"op":"load_vector","map":"m","entries":[{"va":0,"len":524288},{"va":0,"len":524288}]}
Limit(buffer) [2] <- {"op":"load_vector","map":"m","entries":[{"va":0,"len":524288},{"va":0,"len":524289}],"then":7}
Limit(buffer) [2] <- {"op":"load_vector","map":"m","entries":[{"va":0,"len":1048577}]}
Limit(buffer) [2] <- {"op":"load_vector","map":"m","entries":[{"va":0,"len":"0xffffffffffffffff"},{"va":0,"len":1}]}
Limit(buffer) [2] <- {"op":"load_vector","map":"m","entries":[{"va":0,"len":"0xffffffffffffffff"},{"va":0,"len":"0xffffffffffffffff"},{"va":0,"len":2}]}
BadField [2].flags <- {"op":"load_vector","map":"m","entries":[{"va":0,"len":1048577}],"flags":7}
good <- {"op":"load_mbuf","map":"m","entries":[]}
good <- {"op":"load_mbuf","map":"m","entries":[{"va":"0x1000","len":54},{"va":"0x1100","len":0}],"then":[{"op":"sync","map":"m","ops":["PREWRITE"]}]}
BadField [2].flags <- {"op":"load_mbuf","map":"m","entries":[],"flags":[]}
BadField [2].flags <- {"op":"load_mbuf","map":"x","entries":7,"flags":["NOWAIT"]}
BadField [2].entries <- {"op":"load_mbuf","map":"m"}
BadField [2].entries[0].len <- {"op":"load_mbuf","map":"m","entries":[{"va":0}]}
UnknownName [2].map <- {"op":"load_mbuf","map":"x"}
BadField [2].then <- {"op":"load_mbuf","map":"m","entries":[],"then":{}}
good <- {"op":"load_mbuf","map":"m","entries":[{"va":0,"len":1048575},{"va":0,"len":1}]}
Limit(buffer) [2] <- {"op":"load_mbuf","map":"m","entries":[{"va":0,"len":1048575},{"va":0,"len":2}],"then":7}
BadField [2].bio <- {"op":"load_bio","map":"m"}
BadField [2].bio <- {"op":"load_bio","map":"m","bio":7}
BadField [2].bio <- {"op":"load_bio","map":"m","bio":["kind"]}
BadField [2].bio.kind <- {"op":"load_bio","map":"m","bio":{}}
BadField [2].bio.kind <- {"op":"load_bio","map":"m","bio":{"a":1,"va":0,"len":0}}
BadField [2].bio.kind <- {"op":"load_bio","map":"m","bio":{"kind":7}}
BadField [2].bio.kind <- {"op":"load_bio","map":"m","bio":{"kind":null,"a":1}}
BadField [2].bio.kind <- {"op":"load_bio","map":"m","bio":{"kind":"Mapped","a":1}}
BadField [2].bio.kind <- {"op":"load_bio","map":"m","bio":{"kind":"","va":0,"len":0}}
BadField [2].bio.kind <- {"op":"load_bio","map":"m","bio":{"kind":"mappe","va":0,"len":0}}
good <- {"op":"load_bio","map":"m","bio":{"kind":"mapped","va":0,"len":0}}
good <- {"op":"load_bio","map":"m","bio":{"va":"0x1000","len":1048576,"kind":"mapped"},"flags":["NOWAIT"],"then":[]}
BadField [2].bio.a <- {"op":"load_bio","map":"m","bio":{"kind":"mapped","a":1,"va":"x","b":1}}
BadField [2].bio.entries <- {"op":"load_bio","map":"m","bio":{"kind":"mapped","entries":[],"va":0,"len":0}}
BadField [2].bio.va <- {"op":"load_bio","map":"m","bio":{"kind":"mapped","len":"x"}}
BadField [2].bio.len <- {"op":"load_bio","map":"m","bio":{"kind":"mapped","va":0}}
BadField [2].bio.len <- {"op":"load_bio","map":"m","bio":{"kind":"mapped","va":0,"len":"4096"}}
Limit(buffer) [2] <- {"op":"load_bio","map":"m","bio":{"kind":"mapped","va":0,"len":1048577},"then":7}
BadField [2].flags <- {"op":"load_bio","map":"m","bio":{"kind":"mapped","va":0,"len":1048577},"flags":7}
good <- {"op":"load_bio","map":"m","bio":{"kind":"vector","entries":[]}}
good <- {"op":"load_bio","map":"m","bio":{"kind":"vector","entries":[{"va":0,"len":1048576}]}}
BadField [2].bio.len <- {"op":"load_bio","map":"m","bio":{"kind":"vector","va":0,"len":0}}
BadField [2].bio.entries <- {"op":"load_bio","map":"m","bio":{"kind":"vector"}}
BadField [2].bio.entries[0].len <- {"op":"load_bio","map":"m","bio":{"kind":"vector","entries":[{"va":0}]}}
Limit(buffer) [2] <- {"op":"load_bio","map":"m","bio":{"kind":"vector","entries":[{"va":0,"len":1048576},{"va":0,"len":1}]}}
good <- {"op":"load_bio","map":"m","bio":{"kind":"unmapped","frames":[],"off":0,"len":0}}
good <- {"op":"load_bio","map":"m","bio":{"kind":"unmapped","frames":[],"off":0,"len":1}}
good <- {"op":"load_bio","map":"m","bio":{"kind":"unmapped","frames":[16,"0x10",16],"off":4095,"len":1048576}}
BadField [2].bio.va <- {"op":"load_bio","map":"m","bio":{"kind":"unmapped","frames":[16],"off":0,"len":0,"va":0}}
BadField [2].bio.frames <- {"op":"load_bio","map":"m","bio":{"kind":"unmapped","off":4096}}
BadField [2].bio.frames <- {"op":"load_bio","map":"m","bio":{"kind":"unmapped","frames":16,"off":4096}}
FrameAbsent [2].bio.frames[1] <- {"op":"load_bio","map":"m","bio":{"kind":"unmapped","frames":[16,17],"off":0,"len":0}}
FrameAbsent [2].bio.frames[0] <- {"op":"load_bio","map":"m","bio":{"kind":"unmapped","frames":[15,"x"],"off":4096}}
FrameAbsent [2].bio.frames[0] <- {"op":"load_bio","map":"m","bio":{"kind":"unmapped","frames":["0xffffffffffffffff"],"off":0,"len":0}}
BadField [2].bio.frames[0] <- {"op":"load_bio","map":"m","bio":{"kind":"unmapped","frames":["16",17],"off":0,"len":0}}
BadField [2].bio.frames[1] <- {"op":"load_bio","map":"m","bio":{"kind":"unmapped","frames":[16,[16]],"off":0,"len":0}}
BadField [2].bio.off <- {"op":"load_bio","map":"m","bio":{"kind":"unmapped","frames":[16],"len":"x"}}
BadField [2].bio.off <- {"op":"load_bio","map":"m","bio":{"kind":"unmapped","frames":[16],"off":4096,"len":"x"}}
BadField [2].bio.off <- {"op":"load_bio","map":"m","bio":{"kind":"unmapped","frames":[16],"off":"x","len":"x"}}
BadField [2].bio.len <- {"op":"load_bio","map":"m","bio":{"kind":"unmapped","frames":[16],"off":4095}}
Limit(buffer) [2] <- {"op":"load_bio","map":"m","bio":{"kind":"unmapped","frames":[16],"off":0,"len":1048577},"then":7}
BadField [2].entries <- {"op":"load_bio","map":"m","bio":{"kind":"vector","entries":[]},"entries":[]}
BadField [2].len <- {"op":"load_bio","map":"m","bio":7,"len":0}
UnknownName [2].map <- {"op":"load_bio","map":"t","bio":7}
BadFlag [2].flags[0] <- {"op":"load_bio","map":"m","bio":{"kind":"vector","entries":[]},"flags":["ZERO"],"then":7}
BadField [2].then[0] <- {"op":"load_bio","map":"m","bio":{"kind":"vector","entries":[]},"then":[7]}
"#;

/// What the reader says of the entries of a vector or a chain. A list with as many elements as the limit is
/// read. With one more element it is refused, whatever its elements are.
pub const ENTRIES: &str = r#"
good <- 4096 times {"va":0,"len":0}
Limit(entries) [2].entries <- 4097 times {"va":0,"len":0}
Limit(entries) [2].entries <- 4097 times []
"#;

/// What the reader says of the entries of a bio at the limit of a list and with one more element.
pub const BIO_ENTRIES: &str = r#"
good <- 4096 times {"va":0,"len":256}
Limit(entries) [2].bio.entries <- 4097 times {"va":0,"len":256}
Limit(entries) [2].bio.entries <- 4097 times []
"#;

/// What the reader says of the frames of a bio at the limit of a list and with one more element.
pub const BIO_FRAMES: &str = r#"
good <- 4096 times 16
Limit(entries) [2].bio.frames <- 4097 times 16
Limit(entries) [2].bio.frames <- 4097 times []
"#;

/// What the reader says of the frames of a bio of the second driver and of its pages, if the first driver has
/// the frame 1.
pub const FRAMES: &str = r#"
good <- 2],"off":0,"len":1}}],"pages":[[0,2,1]]
FrameAbsent drivers[1].script[2].bio.frames[0] <- 1],"off":0,"len":1}}],"pages":[[0,2,1]]
FrameAbsent drivers[1].script[2].bio.frames[0] <- 0],"off":0,"len":1}}],"pages":[[0,2,1]]
good <- 2],"off":0,"len":1}}],"pages":[[0,3,2],[8192,2,1]]
FrameAbsent drivers[1].script[2].bio.frames[0] <- 2],"off":0,"len":1}}],"pages":[]
"#;
