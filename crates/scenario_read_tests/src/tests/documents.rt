//! Complete documents, the pages of a driver, and orders.

/// What the reader says of documents.
pub const DOCUMENTS: &str = r#"
NotJson <- {
NotJson <- {"frames":[],"drivers":[]}7
NotJson <- {"frames":[],"drivers":[],"\ud800":1}
NotJson <- {"frames":[],"max_bpages":1e400,"drivers":[]}
BadField <- []
BadField <- 7
BadField <- {"":1}
BadField extra <- {"frames":[],"drivers":[],"extra":1}
BadField b <- {"z":1,"b":2,"frames":7}
BadField frames <- {"drivers":[]}
BadField drivers <- {"frames":[]}
BadField frames <- {"frames":7,"drivers":7}
BadField frames <- {"frames":null,"drivers":[]}
good <- {"frames":7,"frames":[],"drivers":[]}
BadField drivers <- {"frames":[],"drivers":[],"drivers":7}
FrameTwice frames[1] <- {"frames":[["0x10",2],["0x11",1]],"drivers":[]}
good <- {"frames":[["0x10",2],[18,1],["0xF",1]],"drivers":[]}
FrameTwice frames[1] <- {"frames":[["0x10",2],[15,2]],"drivers":[]}
BadField frames[1] <- {"frames":[[1,2],7],"drivers":[]}
BadField frames[0] <- {"frames":[[1,0]],"drivers":[]}
BadField frames[0] <- {"frames":[[1]],"drivers":[]}
BadField frames[0] <- {"frames":[[1,2,3]],"drivers":[]}
BadField frames[0] <- {"frames":[[1,"2"]],"drivers":[]}
BadField frames[0] <- {"frames":[[1.0,2]],"drivers":[]}
good <- {"frames":[["0x3fffffff",1]],"drivers":[]}
Limit(frame_number) frames[0] <- {"frames":[["0x3fffffff",2]],"drivers":[]}
Limit(frame_number) frames[0] <- {"frames":[["0xffffffffffffffff","0xffffffffffffffff"]],"drivers":[]}
good <- {"frames":[["0x10",8192]],"drivers":[]}
Limit(frames) frames[0] <- {"frames":[["0x10",8193]],"drivers":[]}
Limit(frames) frames[2] <- {"frames":[[0,8191],[9000,1],[1,1]],"drivers":[]}
Limit(max_bpages) max_bpages <- {"frames":[],"max_bpages":0,"drivers":[]}
good <- {"frames":[],"max_bpages":1,"drivers":[]}
good <- {"frames":[],"max_bpages":8192,"drivers":[]}
Limit(max_bpages) max_bpages <- {"frames":[],"max_bpages":8193,"drivers":7}
BadField max_bpages <- {"frames":[],"max_bpages":1.0,"drivers":[]}
BadField max_bpages <- {"frames":[],"max_bpages":1e2,"drivers":[]}
BadField max_bpages <- {"frames":[],"max_bpages":-0,"drivers":[]}
BadField max_bpages <- {"frames":[],"max_bpages":-1,"drivers":[]}
Limit(max_bpages) max_bpages <- {"frames":[],"max_bpages":18446744073709551615,"drivers":[]}
BadField max_bpages <- {"frames":[],"max_bpages":18446744073709551616,"drivers":[]}
BadField max_bpages <- {"frames":[],"max_bpages":"0x","drivers":[]}
BadField max_bpages <- {"frames":[],"max_bpages":"0X1","drivers":[]}
good <- {"frames":[],"max_bpages":"0x0000000000000001","drivers":[]}
BadField max_bpages <- {"frames":[],"max_bpages":"0x00000000000000001","drivers":[]}
BadField max_bpages <- {"frames":[],"max_bpages":"0x1g","drivers":[]}
BadField drivers[0] <- {"frames":[],"drivers":[7]}
BadField drivers[1] <- {"frames":[],"drivers":[{"script":[]},7]}
Limit(drivers) drivers <- {"frames":[],"drivers":[7,7,7,7,7,7,7,7,7,7,7,7,7,7,7,7,7]}
good <- {"frames":[],"drivers":[{"script":[]},{"script":[]},{"script":[]},{"script":[]},{"script":[]},{"script":[]},{"script":[]},{"script":[]},{"script":[]},{"script":[]},{"script":[]},{"script":[]},{"script":[]},{"script":[]},{"script":[]},{"script":[]}]}
BadField drivers[0].x <- {"frames":[],"drivers":[{"script":[],"x":1}]}
BadField drivers[0].script <- {"frames":[],"drivers":[{"pages":[]}]}
BadField drivers[0].pages <- {"frames":[],"drivers":[{"pages":7}]}
BadField drivers[0].script <- {"frames":[],"drivers":[{"script":7}]}
good <- {"frames":[],"drivers":[{"script":[]}]}
BadField order[0] <- {"frames":[],"drivers":[],"order":["s0"]}
BadField order <- {"frames":[],"drivers":[],"order":7}
good <- {"frames":[],"drivers":[{"script":[]}],"order":["s0","d0","c0","s0"]}
good <- {"frames":[],"drivers":[{"script":[]},{"script":[]}],"order":["s1","d0","c1"]}
BadField order[0] <- {"frames":[],"drivers":[{"script":[]},{"script":[]}],"order":["s2"]}
FrameTwice drivers[1].pages[0] <- {"frames":[[1,2]],"drivers":[{"pages":[[0,1,1]],"script":[]},{"pages":[[4096,1,1]],"script":[]}]}
BadField order[1] <- {"frames":[],"drivers":[{"script":[]}],"order":["s0","s1"]}
BadField order[0] <- {"frames":[],"drivers":[{"script":[]}],"order":["s00"]}
BadField order[0] <- {"frames":[],"drivers":[{"script":[]}],"order":["x0"]}
BadField order[0] <- {"frames":[],"drivers":[{"script":[]}],"order":["s"]}
BadField order[1] <- {"frames":[],"drivers":[{"script":[]}],"order":["s0",""]}
BadField order[0] <- {"frames":[],"drivers":[{"script":[]}],"order":["s+0"]}
BadField order[0] <- {"frames":[],"drivers":[{"script":[]}],"order":["s0000000000"]}
BadField order[0] <- {"frames":[],"drivers":[{"script":[]}],"order":[0]}
BadField <- [[[[[[[[[[[[[[[[[[[[[[[[[[[[[[[[[[[[[[[[[[[[[[[[[[[[[[[[[[[[[[[[[[[[[[[[[[[[[[[[[[[[[[[[[[[[[[[[[[[[[[[[[[[[[[[[[[[[[[[[[[[[[[[]]]]]]]]]]]]]]]]]]]]]]]]]]]]]]]]]]]]]]]]]]]]]]]]]]]]]]]]]]]]]]]]]]]]]]]]]]]]]]]]]]]]]]]]]]]]]]]]]]]]]]]]]]]]]]]]]]]]]]]]]]]]]]]
NotJson <- [[[[[[[[[[[[[[[[[[[[[[[[[[[[[[[[[[[[[[[[[[[[[[[[[[[[[[[[[[[[[[[[[[[[[[[[[[[[[[[[[[[[[[[[[[[[[[[[[[[[[[[[[[[[[[[[[[[[[[[[[[[[[[[[]]]]]]]]]]]]]]]]]]]]]]]]]]]]]]]]]]]]]]]]]]]]]]]]]]]]]]]]]]]]]]]]]]]]]]]]]]]]]]]]]]]]]]]]]]]]]]]]]]]]]]]]]]]]]]]]]]]]]]]]]]]]]]]]
"#;

/// What the reader says of a driver's pages, if the machine has the frames 16 to 19 and 21.
pub const PAGES: &str = r#"
good <- ["0x1000",16,4],[0,21,1]
good <- ["0xfffff7fffffff000",16,1]
BadField drivers[0].pages[0] <- ["0xfffff7fffffff000",16,2]
BadField drivers[0].pages[0] <- ["0xfffff80000000000",16,1]
BadField drivers[0].pages[0] <- ["0xfffffffffffff000",16,"0xffffffffffffffff"]
BadField drivers[0].pages[0] <- ["0x1001",16,1]
BadField drivers[0].pages[0] <- ["0x1000",16,0]
BadField drivers[0].pages[0] <- ["0x1000",16]
BadField drivers[0].pages[0] <- ["0x1000",16,1,1]
BadField drivers[0].pages[0] <- ["0x1000","16",1]
BadField drivers[0].pages[1] <- [0,16,1],7
FrameAbsent drivers[0].pages[0] <- [0,15,1]
FrameAbsent drivers[0].pages[0] <- [0,16,5]
FrameTwice drivers[0].pages[1] <- [0,16,2],["0x4000",17,1]
FrameTwice drivers[0].pages[1] <- [0,16,2],[0,17,1]
BadField drivers[0].pages[1] <- [0,16,2],["0x1000",18,1]
FrameAbsent drivers[0].pages[1] <- [0,16,2],["0x1000",18,3]
"#;

/// What the reader says of the actors of an order.
pub const ACTORS: &str = r#"
good <- 65536 times "s0"
Limit(order) order <- 65537 times "s0"
"#;
