//! Memories, and the places and loads that name them.

/// What the reader says of an operation after a tag `t`, a map `m` and a memory `q`. The path is the rest
/// after the script's path.
pub const MEMORIES: &str = r#"
good <- {"op":"dmamem","name":"x","tag":"t"}
good <- {"op":"dmamem","name":"x","tag":"t","flags":["WAITOK","NOWAIT","ZERO","COHERENT","ZERO"]}
BadFlag [3].flags[0] <- {"op":"dmamem","name":"x","tag":"t","flags":["ALLOCNOW"]}
BadFlag [3].flags[1] <- {"op":"dmamem","name":"x","tag":"t","flags":["ZERO","zero"]}
BadField [3].flags[1] <- {"op":"dmamem","name":"x","tag":"t","flags":["ZERO",2]}
BadField [3].flags <- {"op":"dmamem","name":"x","tag":"t","flags":"ZERO"}
BadField [3].name <- {"op":"dmamem","tag":"x","flags":7}
BadField [3].name <- {"op":"dmamem","name":"Q","tag":"x","flags":7}
BadField [3].name <- {"op":"dmamem","name":"q","tag":"x"}
BadField [3].name <- {"op":"dmamem","name":"m","tag":"x"}
BadField [3].name <- {"op":"dmamem","name":"t","tag":"x"}
BadField [3].tag <- {"op":"dmamem","name":"x","flags":7}
UnknownName [3].tag <- {"op":"dmamem","name":"x","tag":"x","flags":7}
UnknownName [3].tag <- {"op":"dmamem","name":"x","tag":"m"}
UnknownName [3].tag <- {"op":"dmamem","name":"x","tag":"q"}
BadField [3].len <- {"op":"dmamem","name":"x","tag":"t","len":4096}
BadField [3].name <- {"op":"tag","name":"q"}
BadField [3].name <- {"op":"map","name":"q","tag":"t"}
UnknownName [3].parent <- {"op":"tag","name":"x","parent":"q"}
UnknownName [3].tag <- {"op":"tag_destroy","tag":"q"}
UnknownName [3].tag <- {"op":"map","name":"x","tag":"q"}
UnknownName [3].map <- {"op":"map_destroy","map":"q"}
good <- {"op":"dmamem_free","mem":"q"}
UnknownName [3].mem <- {"op":"dmamem_free","mem":"m"}
UnknownName [3].mem <- {"op":"dmamem_free","mem":"t"}
UnknownName [3].mem <- {"op":"dmamem_free","mem":"x"},{"op":"dmamem","name":"x","tag":"t"}
BadField [3].mem <- {"op":"dmamem_free","mem":"Q"}
BadField [3].mem <- {"op":"dmamem_free"}
BadField [3].map <- {"op":"dmamem_free","map":"q"}
BadField [3].off <- {"op":"dmamem_free","mem":"q","off":0}
good <- {"op":"dmamem_free","mem":"q"},{"op":"dmamem_free","mem":"q"},{"op":"load","map":"q","mem":"q","len":1}
BadField [4].name <- {"op":"dmamem_free","mem":"q"},{"op":"dmamem","name":"q","tag":"t"}
good <- {"op":"load","map":"q","mem":"q","len":64}
good <- {"op":"load","map":"m","mem":"q","len":64}
good <- {"op":"load","map":"q","va":0,"len":64,"flags":["NOWAIT"],"then":[]}
BadField [3].off <- {"op":"load","map":"q","mem":"q","off":0,"len":64}
BadField [3].off <- {"op":"load","map":"x","mem":"q","off":1,"len":64}
BadField [3].off <- {"op":"load","map":"q","va":0,"mem":"q","off":1,"len":64}
BadField [3] <- {"op":"load","map":"q","va":0,"mem":"q","len":64}
BadField [3] <- {"op":"load","map":"q","va":"x","mem":7,"len":"x"}
BadField [3] <- {"op":"load","map":"q","len":64}
UnknownName [3].map <- {"op":"load","map":"x","va":0,"mem":"q","len":64}
UnknownName [3].mem <- {"op":"load","map":"q","mem":"m","len":"x"}
UnknownName [3].mem <- {"op":"load","map":"q","mem":"t","len":64}
BadField [3].mem <- {"op":"load","map":"q","mem":"Q","len":"x"}
BadField [3].mem <- {"op":"load","map":"q","mem":7,"len":"x"}
BadField [3].len <- {"op":"load","map":"q","mem":"q","flags":7}
BadField [3].flags <- {"op":"load","map":"q","mem":"q","len":1048577,"flags":7}
Limit(buffer) [3] <- {"op":"load","map":"q","mem":"q","len":1048577,"then":7}
BadField [3].mem <- {"op":"load_vector","map":"q","entries":[],"mem":"q"}
BadField [3].entries[0].mem <- {"op":"load_vector","map":"q","entries":[{"mem":"q","len":1}]}
good <- {"op":"load_vector","map":"q","entries":[{"va":0,"len":1}]}
good <- {"op":"load_mbuf","map":"q","entries":[]}
good <- {"op":"load_bio","map":"q","bio":{"kind":"mapped","va":0,"len":0}}
BadField [3].bio.mem <- {"op":"load_bio","map":"q","bio":{"kind":"mapped","mem":"q","len":0}}
good <- {"op":"unload","map":"q"},{"op":"await","map":"q"},{"op":"sync","map":"q","ops":["PREREAD"]}
good <- {"op":"sync_range","map":"q","off":0,"len":1,"ops":[]}
good <- {"op":"load","map":"m","va":0,"len":0,"then":[{"op":"sync","map":"q","ops":[]},{"op":"dev_write","map":"q","off":0,"hex":"01"}]}
good <- {"op":"load","map":"q","mem":"q","len":1,"then":[{"op":"dev_read","map":"q","off":0,"len":1}]}
BadField [3].then[0].mem <- {"op":"load","map":"q","mem":"q","len":1,"then":[{"op":"dev_read","map":"q","mem":"q","off":0,"len":1}]}
BadOp [3].then[0].op <- {"op":"load","map":"q","mem":"q","len":1,"then":[{"op":"dmamem","name":"x","tag":"t"}]}
BadOp [3].then[0].op <- {"op":"load","map":"q","mem":"q","len":1,"then":[{"op":"dmamem_free","mem":"q"}]}
good <- {"op":"cpu_read","mem":"q","len":4096}
good <- {"op":"cpu_read","mem":"q","off":"0xffffffffffffffff","len":1}
BadField [3] <- {"op":"cpu_read","va":0,"mem":"q","len":1}
BadField [3] <- {"op":"cpu_read","va":"x","mem":7,"off":"x","len":"x"}
BadField [3] <- {"op":"cpu_read","va":0,"off":0,"len":1}
BadField [3] <- {"op":"cpu_read","va":"x","off":"x","len":"x"}
BadField [3] <- {"op":"cpu_read","off":0,"len":1}
BadField [3] <- {"op":"cpu_read","len":1}
UnknownName [3].mem <- {"op":"cpu_read","mem":"m","off":"x","len":"x"}
UnknownName [3].mem <- {"op":"cpu_read","mem":"t","len":1}
UnknownName [3].mem <- {"op":"cpu_read","mem":"x","len":1},{"op":"dmamem","name":"x","tag":"t"}
BadField [3].mem <- {"op":"cpu_read","mem":"","len":1}
BadField [3].mem <- {"op":"cpu_read","mem":null,"len":1}
BadField [3].off <- {"op":"cpu_read","mem":"q","off":"x","len":"x"}
BadField [3].off <- {"op":"cpu_read","mem":"q","off":1.0,"len":1}
BadField [3].off <- {"op":"cpu_read","mem":"q","off":null,"len":1}
BadField [3].len <- {"op":"cpu_read","mem":"q","off":1}
Limit(access) [3] <- {"op":"cpu_read","mem":"q","len":4097}
BadField [3].map <- {"op":"cpu_read","map":"q","mem":"q","len":1}
good <- {"op":"cpu_write","mem":"q","hex":"0aFf"}
good <- {"op":"cpu_write","mem":"q","off":4095,"fill":255,"len":4096}
BadField [3] <- {"op":"cpu_write","va":0,"mem":"q","hex":"0"}
BadField [3] <- {"op":"cpu_write","va":0,"off":0,"hex":"0"}
BadField [3] <- {"op":"cpu_write","off":0,"hex":"0"}
BadField [3] <- {"op":"cpu_write","mem":"q","hex":"00","len":1}
UnknownName [3].mem <- {"op":"cpu_write","mem":"m","off":"x","hex":"0"}
BadField [3].off <- {"op":"cpu_write","mem":"q","off":"x","hex":"0"}
BadField [3].hex <- {"op":"cpu_write","mem":"q","off":1,"hex":"0"}
BadField [3].fill <- {"op":"cpu_write","mem":"q","fill":256,"len":1}
Limit(access) [3] <- {"op":"cpu_write","mem":"q","fill":0,"len":4097}
"#;
