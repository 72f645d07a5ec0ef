//! IOMMU tags, and accesses at device addresses.

/// What the reader says of an operation after a tag `t`, an IOMMU tag `u`, and a map of each, `m` and `n`.
/// The path is the rest after the script's path.
pub const IOMMU_TAGS: &str = r#"
good <- {"op":"iommu_tag","name":"x"}
good <- {"op":"iommu_tag","name":"x","lowaddr":"0xffff","boundary":4096,"maxsize":0,"nsegments":4294967295,"maxsegsz":"0xffffffffffffffff"}
good <- {"op":"iommu_tag","name":"x","lowaddr":0,"boundary":3,"nsegments":0,"maxsegsz":0}
BadField [4].alignment <- {"op":"iommu_tag","name":"x","alignment":1}
BadField [4].flags <- {"op":"iommu_tag","name":"x","flags":[]}
BadField [4].highaddr <- {"op":"iommu_tag","name":"u","parent":"t","highaddr":0}
BadField [4].parent <- {"op":"iommu_tag","name":"x","parent":"t"}
BadField [4].name <- {"op":"iommu_tag","lowaddr":"x"}
BadField [4].name <- {"op":"iommu_tag","name":"t","lowaddr":"x"}
BadField [4].name <- {"op":"iommu_tag","name":"u","lowaddr":"x"}
BadField [4].name <- {"op":"iommu_tag","name":"n"}
BadField [4].name <- {"op":"iommu_tag","name":"U"}
BadField [4].lowaddr <- {"op":"iommu_tag","name":"x","boundary":"x","lowaddr":"x"}
BadField [4].boundary <- {"op":"iommu_tag","name":"x","maxsize":"x","boundary":-1}
BadField [4].maxsize <- {"op":"iommu_tag","name":"x","nsegments":4294967296,"maxsize":1.0}
BadField [4].nsegments <- {"op":"iommu_tag","name":"x","maxsegsz":"x","nsegments":4294967296}
BadField [4].maxsegsz <- {"op":"iommu_tag","name":"x","maxsegsz":null}
BadField [4].name <- {"op":"tag","name":"u"}
BadField [4].name <- {"op":"map","name":"u","tag":"u"}
UnknownName [4].parent <- {"op":"tag","name":"x","parent":"u"}
UnknownName [4].tag <- {"op":"dmamem","name":"x","tag":"u"}
good <- {"op":"map","name":"x","tag":"u"}
UnknownName [4].tag <- {"op":"map","name":"x","tag":"n"}
UnknownName [4].tag <- {"op":"map","name":"x","tag":"w"},{"op":"iommu_tag","name":"w"}
good <- {"op":"tag_destroy","tag":"u"}
UnknownName [4].tag <- {"op":"tag_destroy","tag":"n"}
good <- {"op":"map_destroy","map":"n"}
UnknownName [4].map <- {"op":"map_destroy","map":"u"}
UnknownName [4].map <- {"op":"load","map":"u","va":0,"len":0}
UnknownName [4].map <- {"op":"await","map":"u"}
UnknownName [4].mem <- {"op":"dmamem_free","mem":"u"}
UnknownName [4].mem <- {"op":"cpu_read","mem":"u","len":1}
BadOp [4].op <- {"op":"dev_read_at","tag":"u","addr":0,"len":1}
BadOp [4].op <- {"op":"dev_write_at","tag":"u","addr":0,"hex":"00"}
"#;

/// What the reader says of the items of a load of no bytes after these operations. The path is the rest after
/// the path of the items.
pub const RAW_ACCESSES: &str = r#"
good <- {"op":"dev_read_at","tag":"u","addr":0,"len":0}
good <- {"op":"dev_read_at","tag":"u","addr":"0xffffffffffffffff","len":4096}
BadField [0].tag <- {"op":"dev_read_at","addr":"x","len":1}
BadField [0].tag <- {"op":"dev_read_at","tag":"U","addr":"x","len":1}
UnknownName [0].tag <- {"op":"dev_read_at","tag":"t","addr":"x","len":4097}
UnknownName [0].tag <- {"op":"dev_read_at","tag":"n","addr":0,"len":1}
UnknownName [0].tag <- {"op":"dev_read_at","tag":"x","addr":0,"len":1}
BadField [0].addr <- {"op":"dev_read_at","tag":"u","len":"x"}
BadField [0].addr <- {"op":"dev_read_at","tag":"u","addr":18446744073709551616,"len":"x"}
BadField [0].addr <- {"op":"dev_read_at","tag":"u","addr":"0x10000000000000000","len":1}
BadField [0].len <- {"op":"dev_read_at","tag":"u","addr":0}
BadField [0].hex <- {"op":"dev_read_at","tag":"u","addr":0,"len":1,"hex":"00"}
BadField [0].map <- {"op":"dev_read_at","map":"n","tag":"u","addr":0,"len":1}
BadField [0].off <- {"op":"dev_read_at","tag":"u","off":0,"len":1}
Limit(access) [0] <- {"op":"dev_read_at","tag":"u","addr":0,"len":4097}
good <- {"op":"dev_write_at","tag":"u","addr":"0xffffffffffffffff","hex":"aB01"}
good <- {"op":"dev_write_at","tag":"u","addr":0,"fill":255,"len":4096}
BadField [0].tag <- {"op":"dev_write_at","addr":"x","hex":"0"}
UnknownName [0].tag <- {"op":"dev_write_at","tag":"t","addr":"x","hex":"0"}
UnknownName [0].tag <- {"op":"dev_write_at","tag":"m","addr":0,"hex":"00"}
BadField [0].addr <- {"op":"dev_write_at","tag":"u","hex":"0"}
BadField [0].hex <- {"op":"dev_write_at","tag":"u","addr":0,"hex":"0"}
BadField [0].fill <- {"op":"dev_write_at","tag":"u","addr":0,"fill":256,"len":1}
BadField [0] <- {"op":"dev_write_at","tag":"u","addr":0,"hex":"00","len":1}
BadField [0] <- {"op":"dev_write_at","tag":"u","addr":0,"hex":"00","fill":0,"len":1}
BadField [0] <- {"op":"dev_write_at","tag":"u","addr":0}
BadField [0].off <- {"op":"dev_write_at","tag":"u","addr":0,"off":0,"hex":"00"}
Limit(access) [0] <- {"op":"dev_write_at","tag":"u","addr":0,"fill":0,"len":4097}
UnknownName [0].map <- {"op":"sync","map":"u","ops":[]}
UnknownName [0].map <- {"op":"dev_read","map":"u","off":0,"len":1}
BadOp [0].op <- {"op":"iommu_tag","name":"x"}
"#;

/// What the reader says of repeated loads after these operations: a raw read counts for the limit on reads, a
/// raw write does not.
pub const REPEATED: &str = r#"
good <- 256 times {"op":"load","map":"n","va":0,"len":0,"then":[{"op":"dev_read_at","tag":"u","addr":0,"len":4096}]}
Limit(reads) [260].then[0] <- 257 times {"op":"load","map":"n","va":0,"len":0,"then":[{"op":"dev_read_at","tag":"u","addr":0,"len":4096}]}
Limit(reads) [260].then[0] <- 129 times {"op":"load","map":"n","va":0,"len":0,"then":[{"op":"dev_read_at","tag":"u","addr":0,"len":4096}]},{"op":"cpu_read","va":0,"len":4096}
good <- 257 times {"op":"load","map":"n","va":0,"len":0,"then":[{"op":"dev_write_at","tag":"u","addr":0,"fill":0,"len":4096}]}
"#;
