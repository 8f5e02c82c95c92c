//! Runs of steps, each in a fresh world: the lines, and every line that is answered.
use sdb_lines::{CountingReader, CountingWriter};
use sdb_steps::{Step, StepAnswer, read_step, run, run_steps, write_refusal, write_step_answer};
use std::alloc::Global;
use std::process::Abort;

const STEPS_CACHE: &str =
    r#"{"s":0,"do":"begin","c":"b","d":"1","src":"w","seq":1,"create":{"type":"http://sharejs.org/types/JSONv0","data":{"n":0}}}
{"s":0,"do":"commit"}
{"s":1,"do":"begin","c":"b","d":"1","src":"x","seq":1,"v":1,"op":[{"p":["n"],"na":10}]}
{"s":2,"do":"begin","c":"b","d":"1","src":"y","seq":1,"v":1,"op":[{"p":["n"],"na":5}]}
{"s":1,"do":"work"}
{"s":2,"do":"work"}
{"s":2,"do":"commit"}
{"s":1,"do":"commit"}
{"s":1,"do":"work"}
{"s":1,"do":"commit"}
{"s":0,"do":"fetch","c":"b","d":"1"}
{"s":0,"do":"snapshot","c":"b","d":"1","v":0}
{"s":0,"do":"snapshot","c":"b","d":"1","v":1}
{"s":0,"do":"snapshot","c":"b","d":"1","v":2}
{"s":0,"do":"snapshot","c":"b","d":"1","v":3}
{"s":0,"do":"forget","c":"b","d":"1"}
{"s":0,"do":"snapshot","c":"b","d":"1","v":0}
{"s":0,"do":"snapshot","c":"b","d":"1","v":1}
{"s":0,"do":"snapshot","c":"b","d":"1","v":2}
{"s":0,"do":"snapshot","c":"b","d":"1","v":3}
{"s":0,"do":"snapshot","c":"b","d":"1","v":4}
"#;

const STEPS_CACHE_ANSWERS: &str = r#"{"do":"begin","s":0}
{"do":"commit","missed":[],"s":0,"v":0}
{"do":"begin","s":1}
{"do":"begin","s":2}
{"do":"work","s":1}
{"do":"work","s":2}
{"do":"commit","missed":[],"s":2,"v":1}
{"do":"moved","s":1}
{"do":"work","s":1}
{"do":"commit","missed":[{"op":[{"na":5,"p":["n"]}],"seq":1,"src":"y","v":1}],"s":1,"v":2}
{"data":{"n":15},"do":"fetch","s":0,"v":3}
{"do":"snapshot","s":0,"type":null,"v":0}
{"data":{"n":0},"do":"snapshot","s":0,"v":1}
{"data":{"n":5},"do":"snapshot","s":0,"v":2}
{"data":{"n":15},"do":"snapshot","s":0,"v":3}
{"do":"forget","s":0}
{"do":"snapshot","s":0,"type":null,"v":0}
{"data":{"n":0},"do":"snapshot","s":0,"v":1}
{"data":{"n":5},"do":"snapshot","s":0,"v":2}
{"data":{"n":15},"do":"snapshot","s":0,"v":3}
{"do":"snapshot","error":"E4","s":0}
"#;

const STEPS_IDLE: &str = r#"{"s":3,"do":"work"}
{"s":3,"do":"commit"}
{"s":3,"do":"take","c":"b","d":"1","max":1}
{"s":3,"do":"unsubscribe","c":"b","d":"1"}
{"s":3,"do":"begin","c":"b","d":"1","src":"w","seq":1,"op":[]}
{"s":3,"do":"begin","c":"b","d":"1","src":"w","seq":1,"op":[]}
{"s":64,"do":"work"}
"#;

const STEPS_IDLE_ANSWERS: &str = r#"{"do":"idle","s":3}
{"do":"idle","s":3}
{"do":"idle","s":3}
{"do":"idle","s":3}
{"do":"begin","s":3}
{"do":"idle","s":3}
{"error":"E1"}
"#;

const STEPS_MOMENTS: &str =
    r#"{"s":0,"do":"begin","c":"b","d":"1","src":"w","seq":1,"create":{"type":"http://sharejs.org/types/JSONv0","data":{"n":0}}}
{"s":0,"do":"commit","ms":100}
{"s":0,"do":"begin","c":"b","d":"1","src":"w","seq":2,"op":[{"p":["n"],"na":1}]}
{"s":0,"do":"commit","ms":90}
{"s":0,"do":"begin","c":"b","d":"1","src":"w","seq":3,"op":[{"p":["n"],"na":1}]}
{"s":0,"do":"commit","ms":200}
{"s":0,"do":"at","c":"b","d":"1","ts":99}
{"s":0,"do":"at","c":"b","d":"1","ts":100}
{"s":0,"do":"at","c":"b","d":"1","ts":150}
{"s":0,"do":"at","c":"b","d":"1","ts":200}
{"s":0,"do":"at","c":"b","d":"1"}
"#;

const STEPS_MOMENTS_ANSWERS: &str = r#"{"do":"begin","s":0}
{"do":"commit","missed":[],"s":0,"v":0}
{"do":"begin","s":0}
{"do":"commit","missed":[],"s":0,"v":1}
{"do":"begin","s":0}
{"do":"commit","missed":[],"s":0,"v":2}
{"do":"at","s":0,"type":null,"v":0}
{"data":{"n":1},"do":"at","s":0,"v":2}
{"data":{"n":1},"do":"at","s":0,"v":2}
{"data":{"n":2},"do":"at","s":0,"v":3}
{"data":{"n":2},"do":"at","s":0,"v":3}
"#;

const STEPS_NINTH: &str =
    r#"{"s":0,"do":"begin","c":"b","d":"1","src":"w","seq":1,"create":{"type":"http://sharejs.org/types/JSONv0","data":{"n":0}}}
{"s":0,"do":"commit"}
{"s":1,"do":"begin","c":"b","d":"1","src":"x","seq":1,"v":1,"op":[{"p":["n"],"na":100}]}
{"s":2,"do":"begin","c":"b","d":"1","src":"y","seq":1,"op":[{"p":["n"],"na":1}]}
{"s":2,"do":"commit"}
{"s":1,"do":"commit"}
{"s":2,"do":"begin","c":"b","d":"1","src":"y","seq":2,"op":[{"p":["n"],"na":1}]}
{"s":2,"do":"commit"}
{"s":1,"do":"commit"}
{"s":2,"do":"begin","c":"b","d":"1","src":"y","seq":3,"op":[{"p":["n"],"na":1}]}
{"s":2,"do":"commit"}
{"s":1,"do":"commit"}
{"s":2,"do":"begin","c":"b","d":"1","src":"y","seq":4,"op":[{"p":["n"],"na":1}]}
{"s":2,"do":"commit"}
{"s":1,"do":"commit"}
{"s":2,"do":"begin","c":"b","d":"1","src":"y","seq":5,"op":[{"p":["n"],"na":1}]}
{"s":2,"do":"commit"}
{"s":1,"do":"commit"}
{"s":2,"do":"begin","c":"b","d":"1","src":"y","seq":6,"op":[{"p":["n"],"na":1}]}
{"s":2,"do":"commit"}
{"s":1,"do":"commit"}
{"s":2,"do":"begin","c":"b","d":"1","src":"y","seq":7,"op":[{"p":["n"],"na":1}]}
{"s":2,"do":"commit"}
{"s":1,"do":"commit"}
{"s":2,"do":"begin","c":"b","d":"1","src":"y","seq":8,"op":[{"p":["n"],"na":1}]}
{"s":2,"do":"commit"}
{"s":1,"do":"commit"}
{"s":2,"do":"begin","c":"b","d":"1","src":"y","seq":9,"op":[{"p":["n"],"na":1}]}
{"s":2,"do":"commit"}
{"s":1,"do":"commit"}
{"s":0,"do":"fetch","c":"b","d":"1"}
"#;

const STEPS_NINTH_ANSWERS: &str = r#"{"do":"begin","s":0}
{"do":"commit","missed":[],"s":0,"v":0}
{"do":"begin","s":1}
{"do":"begin","s":2}
{"do":"commit","missed":[],"s":2,"v":1}
{"do":"moved","s":1}
{"do":"begin","s":2}
{"do":"commit","missed":[],"s":2,"v":2}
{"do":"moved","s":1}
{"do":"begin","s":2}
{"do":"commit","missed":[],"s":2,"v":3}
{"do":"moved","s":1}
{"do":"begin","s":2}
{"do":"commit","missed":[],"s":2,"v":4}
{"do":"moved","s":1}
{"do":"begin","s":2}
{"do":"commit","missed":[],"s":2,"v":5}
{"do":"moved","s":1}
{"do":"begin","s":2}
{"do":"commit","missed":[],"s":2,"v":6}
{"do":"moved","s":1}
{"do":"begin","s":2}
{"do":"commit","missed":[],"s":2,"v":7}
{"do":"moved","s":1}
{"do":"begin","s":2}
{"do":"commit","missed":[],"s":2,"v":8}
{"do":"moved","s":1}
{"do":"begin","s":2}
{"do":"commit","missed":[],"s":2,"v":9}
{"do":"commit","missed":[{"op":[{"na":1,"p":["n"]}],"seq":1,"src":"y","v":1},{"op":[{"na":1,"p":["n"]}],"seq":2,"src":"y","v":2},{"op":[{"na":1,"p":["n"]}],"seq":3,"src":"y","v":3},{"op":[{"na":1,"p":["n"]}],"seq":4,"src":"y","v":4},{"op":[{"na":1,"p":["n"]}],"seq":5,"src":"y","v":5},{"op":[{"na":1,"p":["n"]}],"seq":6,"src":"y","v":6},{"op":[{"na":1,"p":["n"]}],"seq":7,"src":"y","v":7},{"op":[{"na":1,"p":["n"]}],"seq":8,"src":"y","v":8},{"op":[{"na":1,"p":["n"]}],"seq":9,"src":"y","v":9}],"s":1,"v":10}
{"data":{"n":109},"do":"fetch","s":0,"v":11}
"#;

const STEPS_NO_VERSION: &str =
    r#"{"s":0,"do":"begin","c":"b","d":"1","src":"w","seq":1,"create":{"type":"http://sharejs.org/types/JSONv0","data":{"n":0}}}
{"s":0,"do":"commit"}
{"s":1,"do":"begin","c":"b","d":"1","src":"x","seq":1,"v":1,"op":[{"p":["n"],"na":10}]}
{"s":2,"do":"begin","c":"b","d":"1","src":"y","seq":1,"v":1,"op":[{"p":["n"],"na":5}]}
{"s":1,"do":"work"}
{"s":2,"do":"work"}
{"s":2,"do":"commit"}
{"s":1,"do":"commit"}
{"s":1,"do":"work"}
{"s":1,"do":"commit"}
{"s":0,"do":"fetch","c":"b","d":"1"}
{"s":1,"do":"begin","c":"b","d":"2","src":"x","seq":1,"create":{"type":"http://sharejs.org/types/JSONv0","data":{}}}
{"s":2,"do":"begin","c":"b","d":"2","src":"y","seq":1,"create":{"type":"http://sharejs.org/types/JSONv0","data":{}}}
{"s":2,"do":"commit"}
{"s":1,"do":"commit"}
{"s":1,"do":"commit"}
{"s":1,"do":"begin","c":"b","d":"1","src":"x","seq":2,"op":[{"p":["n"],"na":1}]}
{"s":2,"do":"begin","c":"b","d":"1","src":"y","seq":2,"op":[{"p":["n"],"na":1}]}
{"s":2,"do":"commit"}
{"s":1,"do":"commit"}
{"s":1,"do":"commit"}
"#;

const STEPS_NO_VERSION_ANSWERS: &str = r#"{"do":"begin","s":0}
{"do":"commit","missed":[],"s":0,"v":0}
{"do":"begin","s":1}
{"do":"begin","s":2}
{"do":"work","s":1}
{"do":"work","s":2}
{"do":"commit","missed":[],"s":2,"v":1}
{"do":"moved","s":1}
{"do":"work","s":1}
{"do":"commit","missed":[{"op":[{"na":5,"p":["n"]}],"seq":1,"src":"y","v":1}],"s":1,"v":2}
{"data":{"n":15},"do":"fetch","s":0,"v":3}
{"do":"begin","s":1}
{"do":"begin","s":2}
{"do":"commit","missed":[],"s":2,"v":0}
{"do":"moved","s":1}
{"do":"commit","error":"E6","s":1}
{"do":"begin","s":1}
{"do":"begin","s":2}
{"do":"commit","missed":[],"s":2,"v":3}
{"do":"moved","s":1}
{"do":"commit","missed":[],"s":1,"v":4}
"#;

const STEPS_QUEUE: &str =
    r#"{"s":0,"do":"begin","c":"b","d":"1","src":"w","seq":1,"create":{"type":"http://sharejs.org/types/JSONv0","data":{"n":0}}}
{"s":0,"do":"commit"}
{"s":0,"do":"begin","c":"b","d":"1","src":"w","seq":2,"op":[{"p":["n"],"na":1}]}
{"s":0,"do":"commit"}
{"s":0,"do":"begin","c":"b","d":"1","src":"w","seq":3,"op":[{"p":["n"],"na":1}]}
{"s":0,"do":"commit"}
{"s":5,"do":"subscribe","c":"b","d":"1","v":0}
{"s":5,"do":"take","c":"b","d":"1","max":2}
{"s":0,"do":"begin","c":"b","d":"1","src":"w","seq":4,"op":[{"p":["n"],"na":1}]}
{"s":0,"do":"commit"}
{"s":0,"do":"begin","c":"b","d":"1","src":"w","seq":5,"op":[{"p":["n"],"na":1}]}
{"s":0,"do":"commit"}
{"s":5,"do":"take","c":"b","d":"1","max":10}
{"s":5,"do":"take","c":"b","d":"1","max":10}
{"s":0,"do":"begin","c":"b","d":"1","src":"w","seq":6,"op":[{"p":["n"],"na":1}]}
{"s":0,"do":"commit"}
{"s":0,"do":"begin","c":"b","d":"1","src":"w","seq":7,"op":[{"p":["n"],"na":1}]}
{"s":0,"do":"commit"}
{"s":0,"do":"begin","c":"b","d":"1","src":"w","seq":8,"op":[{"p":["n"],"na":1}]}
{"s":0,"do":"commit"}
{"s":0,"do":"begin","c":"b","d":"1","src":"w","seq":9,"op":[{"p":["n"],"na":1}]}
{"s":0,"do":"commit"}
{"s":0,"do":"begin","c":"b","d":"1","src":"w","seq":10,"op":[{"p":["n"],"na":1}]}
{"s":0,"do":"commit"}
{"s":0,"do":"begin","c":"b","d":"1","src":"w","seq":11,"op":[{"p":["n"],"na":1}]}
{"s":0,"do":"commit"}
{"s":0,"do":"begin","c":"b","d":"1","src":"w","seq":12,"op":[{"p":["n"],"na":1}]}
{"s":0,"do":"commit"}
{"s":0,"do":"begin","c":"b","d":"1","src":"w","seq":13,"op":[{"p":["n"],"na":1}]}
{"s":0,"do":"commit"}
{"s":0,"do":"begin","c":"b","d":"1","src":"w","seq":14,"op":[{"p":["n"],"na":1}]}
{"s":0,"do":"commit"}
{"s":0,"do":"begin","c":"b","d":"1","src":"w","seq":15,"op":[{"p":["n"],"na":1}]}
{"s":0,"do":"commit"}
{"s":0,"do":"begin","c":"b","d":"1","src":"w","seq":16,"op":[{"p":["n"],"na":1}]}
{"s":0,"do":"commit"}
{"s":0,"do":"begin","c":"b","d":"1","src":"w","seq":17,"op":[{"p":["n"],"na":1}]}
{"s":0,"do":"commit"}
{"s":0,"do":"begin","c":"b","d":"1","src":"w","seq":18,"op":[{"p":["n"],"na":1}]}
{"s":0,"do":"commit"}
{"s":0,"do":"begin","c":"b","d":"1","src":"w","seq":19,"op":[{"p":["n"],"na":1}]}
{"s":0,"do":"commit"}
{"s":0,"do":"begin","c":"b","d":"1","src":"w","seq":20,"op":[{"p":["n"],"na":1}]}
{"s":0,"do":"commit"}
{"s":0,"do":"begin","c":"b","d":"1","src":"w","seq":21,"op":[{"p":["n"],"na":1}]}
{"s":0,"do":"commit"}
{"s":0,"do":"begin","c":"b","d":"1","src":"w","seq":22,"op":[{"p":["n"],"na":1}]}
{"s":0,"do":"commit"}
{"s":0,"do":"begin","c":"b","d":"1","src":"w","seq":23,"op":[{"p":["n"],"na":1}]}
{"s":0,"do":"commit"}
{"s":0,"do":"begin","c":"b","d":"1","src":"w","seq":24,"op":[{"p":["n"],"na":1}]}
{"s":0,"do":"commit"}
{"s":0,"do":"begin","c":"b","d":"1","src":"w","seq":25,"op":[{"p":["n"],"na":1}]}
{"s":0,"do":"commit"}
{"s":0,"do":"begin","c":"b","d":"1","src":"w","seq":26,"op":[{"p":["n"],"na":1}]}
{"s":0,"do":"commit"}
{"s":0,"do":"begin","c":"b","d":"1","src":"w","seq":27,"op":[{"p":["n"],"na":1}]}
{"s":0,"do":"commit"}
{"s":0,"do":"begin","c":"b","d":"1","src":"w","seq":28,"op":[{"p":["n"],"na":1}]}
{"s":0,"do":"commit"}
{"s":0,"do":"begin","c":"b","d":"1","src":"w","seq":29,"op":[{"p":["n"],"na":1}]}
{"s":0,"do":"commit"}
{"s":0,"do":"begin","c":"b","d":"1","src":"w","seq":30,"op":[{"p":["n"],"na":1}]}
{"s":0,"do":"commit"}
{"s":0,"do":"begin","c":"b","d":"1","src":"w","seq":31,"op":[{"p":["n"],"na":1}]}
{"s":0,"do":"commit"}
{"s":0,"do":"begin","c":"b","d":"1","src":"w","seq":32,"op":[{"p":["n"],"na":1}]}
{"s":0,"do":"commit"}
{"s":0,"do":"begin","c":"b","d":"1","src":"w","seq":33,"op":[{"p":["n"],"na":1}]}
{"s":0,"do":"commit"}
{"s":0,"do":"begin","c":"b","d":"1","src":"w","seq":34,"op":[{"p":["n"],"na":1}]}
{"s":0,"do":"commit"}
{"s":0,"do":"begin","c":"b","d":"1","src":"w","seq":35,"op":[{"p":["n"],"na":1}]}
{"s":0,"do":"commit"}
{"s":0,"do":"begin","c":"b","d":"1","src":"w","seq":36,"op":[{"p":["n"],"na":1}]}
{"s":0,"do":"commit"}
{"s":0,"do":"begin","c":"b","d":"1","src":"w","seq":37,"op":[{"p":["n"],"na":1}]}
{"s":0,"do":"commit"}
{"s":0,"do":"begin","c":"b","d":"1","src":"w","seq":38,"op":[{"p":["n"],"na":1}]}
{"s":0,"do":"commit"}
{"s":0,"do":"begin","c":"b","d":"1","src":"w","seq":39,"op":[{"p":["n"],"na":1}]}
{"s":0,"do":"commit"}
{"s":0,"do":"begin","c":"b","d":"1","src":"w","seq":40,"op":[{"p":["n"],"na":1}]}
{"s":0,"do":"commit"}
{"s":0,"do":"begin","c":"b","d":"1","src":"w","seq":41,"op":[{"p":["n"],"na":1}]}
{"s":0,"do":"commit"}
{"s":0,"do":"begin","c":"b","d":"1","src":"w","seq":42,"op":[{"p":["n"],"na":1}]}
{"s":0,"do":"commit"}
{"s":0,"do":"begin","c":"b","d":"1","src":"w","seq":43,"op":[{"p":["n"],"na":1}]}
{"s":0,"do":"commit"}
{"s":0,"do":"begin","c":"b","d":"1","src":"w","seq":44,"op":[{"p":["n"],"na":1}]}
{"s":0,"do":"commit"}
{"s":0,"do":"begin","c":"b","d":"1","src":"w","seq":45,"op":[{"p":["n"],"na":1}]}
{"s":0,"do":"commit"}
{"s":0,"do":"begin","c":"b","d":"1","src":"w","seq":46,"op":[{"p":["n"],"na":1}]}
{"s":0,"do":"commit"}
{"s":0,"do":"begin","c":"b","d":"1","src":"w","seq":47,"op":[{"p":["n"],"na":1}]}
{"s":0,"do":"commit"}
{"s":0,"do":"begin","c":"b","d":"1","src":"w","seq":48,"op":[{"p":["n"],"na":1}]}
{"s":0,"do":"commit"}
{"s":0,"do":"begin","c":"b","d":"1","src":"w","seq":49,"op":[{"p":["n"],"na":1}]}
{"s":0,"do":"commit"}
{"s":0,"do":"begin","c":"b","d":"1","src":"w","seq":50,"op":[{"p":["n"],"na":1}]}
{"s":0,"do":"commit"}
{"s":0,"do":"begin","c":"b","d":"1","src":"w","seq":51,"op":[{"p":["n"],"na":1}]}
{"s":0,"do":"commit"}
{"s":0,"do":"begin","c":"b","d":"1","src":"w","seq":52,"op":[{"p":["n"],"na":1}]}
{"s":0,"do":"commit"}
{"s":0,"do":"begin","c":"b","d":"1","src":"w","seq":53,"op":[{"p":["n"],"na":1}]}
{"s":0,"do":"commit"}
{"s":0,"do":"begin","c":"b","d":"1","src":"w","seq":54,"op":[{"p":["n"],"na":1}]}
{"s":0,"do":"commit"}
{"s":0,"do":"begin","c":"b","d":"1","src":"w","seq":55,"op":[{"p":["n"],"na":1}]}
{"s":0,"do":"commit"}
{"s":0,"do":"begin","c":"b","d":"1","src":"w","seq":56,"op":[{"p":["n"],"na":1}]}
{"s":0,"do":"commit"}
{"s":0,"do":"begin","c":"b","d":"1","src":"w","seq":57,"op":[{"p":["n"],"na":1}]}
{"s":0,"do":"commit"}
{"s":0,"do":"begin","c":"b","d":"1","src":"w","seq":58,"op":[{"p":["n"],"na":1}]}
{"s":0,"do":"commit"}
{"s":0,"do":"begin","c":"b","d":"1","src":"w","seq":59,"op":[{"p":["n"],"na":1}]}
{"s":0,"do":"commit"}
{"s":0,"do":"begin","c":"b","d":"1","src":"w","seq":60,"op":[{"p":["n"],"na":1}]}
{"s":0,"do":"commit"}
{"s":0,"do":"begin","c":"b","d":"1","src":"w","seq":61,"op":[{"p":["n"],"na":1}]}
{"s":0,"do":"commit"}
{"s":0,"do":"begin","c":"b","d":"1","src":"w","seq":62,"op":[{"p":["n"],"na":1}]}
{"s":0,"do":"commit"}
{"s":0,"do":"begin","c":"b","d":"1","src":"w","seq":63,"op":[{"p":["n"],"na":1}]}
{"s":0,"do":"commit"}
{"s":0,"do":"begin","c":"b","d":"1","src":"w","seq":64,"op":[{"p":["n"],"na":1}]}
{"s":0,"do":"commit"}
{"s":0,"do":"begin","c":"b","d":"1","src":"w","seq":65,"op":[{"p":["n"],"na":1}]}
{"s":0,"do":"commit"}
{"s":0,"do":"begin","c":"b","d":"1","src":"w","seq":66,"op":[{"p":["n"],"na":1}]}
{"s":0,"do":"commit"}
{"s":0,"do":"begin","c":"b","d":"1","src":"w","seq":67,"op":[{"p":["n"],"na":1}]}
{"s":0,"do":"commit"}
{"s":0,"do":"begin","c":"b","d":"1","src":"w","seq":68,"op":[{"p":["n"],"na":1}]}
{"s":0,"do":"commit"}
{"s":0,"do":"begin","c":"b","d":"1","src":"w","seq":69,"op":[{"p":["n"],"na":1}]}
{"s":0,"do":"commit"}
{"s":0,"do":"begin","c":"b","d":"1","src":"w","seq":70,"op":[{"p":["n"],"na":1}]}
{"s":0,"do":"commit"}
{"s":0,"do":"begin","c":"b","d":"1","src":"w","seq":71,"op":[{"p":["n"],"na":1}]}
{"s":0,"do":"commit"}
{"s":0,"do":"begin","c":"b","d":"1","src":"w","seq":72,"op":[{"p":["n"],"na":1}]}
{"s":0,"do":"commit"}
{"s":0,"do":"begin","c":"b","d":"1","src":"w","seq":73,"op":[{"p":["n"],"na":1}]}
{"s":0,"do":"commit"}
{"s":0,"do":"begin","c":"b","d":"1","src":"w","seq":74,"op":[{"p":["n"],"na":1}]}
{"s":0,"do":"commit"}
{"s":0,"do":"begin","c":"b","d":"1","src":"w","seq":75,"op":[{"p":["n"],"na":1}]}
{"s":0,"do":"commit"}
{"s":5,"do":"take","c":"b","d":"1","max":100}
"#;

const STEPS_QUEUE_ANSWERS: &str = r#"{"do":"begin","s":0}
{"do":"commit","missed":[],"s":0,"v":0}
{"do":"begin","s":0}
{"do":"commit","missed":[],"s":0,"v":1}
{"do":"begin","s":0}
{"do":"commit","missed":[],"s":0,"v":2}
{"do":"subscribe","s":5,"v":0}
{"do":"take","ops":[{"create":{"data":{"n":0},"type":"http://sharejs.org/types/JSONv0"},"seq":1,"src":"w","v":0},{"op":[{"na":1,"p":["n"]}],"seq":2,"src":"w","v":1}],"s":5}
{"do":"begin","s":0}
{"do":"commit","missed":[],"s":0,"v":3}
{"do":"begin","s":0}
{"do":"commit","missed":[],"s":0,"v":4}
{"do":"take","ops":[{"op":[{"na":1,"p":["n"]}],"seq":3,"src":"w","v":2},{"op":[{"na":1,"p":["n"]}],"seq":4,"src":"w","v":3},{"op":[{"na":1,"p":["n"]}],"seq":5,"src":"w","v":4}],"s":5}
{"do":"take","ops":[],"s":5}
{"do":"begin","s":0}
{"do":"commit","missed":[],"s":0,"v":5}
{"do":"begin","s":0}
{"do":"commit","missed":[],"s":0,"v":6}
{"do":"begin","s":0}
{"do":"commit","missed":[],"s":0,"v":7}
{"do":"begin","s":0}
{"do":"commit","missed":[],"s":0,"v":8}
{"do":"begin","s":0}
{"do":"commit","missed":[],"s":0,"v":9}
{"do":"begin","s":0}
{"do":"commit","missed":[],"s":0,"v":10}
{"do":"begin","s":0}
{"do":"commit","missed":[],"s":0,"v":11}
{"do":"begin","s":0}
{"do":"commit","missed":[],"s":0,"v":12}
{"do":"begin","s":0}
{"do":"commit","missed":[],"s":0,"v":13}
{"do":"begin","s":0}
{"do":"commit","missed":[],"s":0,"v":14}
{"do":"begin","s":0}
{"do":"commit","missed":[],"s":0,"v":15}
{"do":"begin","s":0}
{"do":"commit","missed":[],"s":0,"v":16}
{"do":"begin","s":0}
{"do":"commit","missed":[],"s":0,"v":17}
{"do":"begin","s":0}
{"do":"commit","missed":[],"s":0,"v":18}
{"do":"begin","s":0}
{"do":"commit","missed":[],"s":0,"v":19}
{"do":"begin","s":0}
{"do":"commit","missed":[],"s":0,"v":20}
{"do":"begin","s":0}
{"do":"commit","missed":[],"s":0,"v":21}
{"do":"begin","s":0}
{"do":"commit","missed":[],"s":0,"v":22}
{"do":"begin","s":0}
{"do":"commit","missed":[],"s":0,"v":23}
{"do":"begin","s":0}
{"do":"commit","missed":[],"s":0,"v":24}
{"do":"begin","s":0}
{"do":"commit","missed":[],"s":0,"v":25}
{"do":"begin","s":0}
{"do":"commit","missed":[],"s":0,"v":26}
{"do":"begin","s":0}
{"do":"commit","missed":[],"s":0,"v":27}
{"do":"begin","s":0}
{"do":"commit","missed":[],"s":0,"v":28}
{"do":"begin","s":0}
{"do":"commit","missed":[],"s":0,"v":29}
{"do":"begin","s":0}
{"do":"commit","missed":[],"s":0,"v":30}
{"do":"begin","s":0}
{"do":"commit","missed":[],"s":0,"v":31}
{"do":"begin","s":0}
{"do":"commit","missed":[],"s":0,"v":32}
{"do":"begin","s":0}
{"do":"commit","missed":[],"s":0,"v":33}
{"do":"begin","s":0}
{"do":"commit","missed":[],"s":0,"v":34}
{"do":"begin","s":0}
{"do":"commit","missed":[],"s":0,"v":35}
{"do":"begin","s":0}
{"do":"commit","missed":[],"s":0,"v":36}
{"do":"begin","s":0}
{"do":"commit","missed":[],"s":0,"v":37}
{"do":"begin","s":0}
{"do":"commit","missed":[],"s":0,"v":38}
{"do":"begin","s":0}
{"do":"commit","missed":[],"s":0,"v":39}
{"do":"begin","s":0}
{"do":"commit","missed":[],"s":0,"v":40}
{"do":"begin","s":0}
{"do":"commit","missed":[],"s":0,"v":41}
{"do":"begin","s":0}
{"do":"commit","missed":[],"s":0,"v":42}
{"do":"begin","s":0}
{"do":"commit","missed":[],"s":0,"v":43}
{"do":"begin","s":0}
{"do":"commit","missed":[],"s":0,"v":44}
{"do":"begin","s":0}
{"do":"commit","missed":[],"s":0,"v":45}
{"do":"begin","s":0}
{"do":"commit","missed":[],"s":0,"v":46}
{"do":"begin","s":0}
{"do":"commit","missed":[],"s":0,"v":47}
{"do":"begin","s":0}
{"do":"commit","missed":[],"s":0,"v":48}
{"do":"begin","s":0}
{"do":"commit","missed":[],"s":0,"v":49}
{"do":"begin","s":0}
{"do":"commit","missed":[],"s":0,"v":50}
{"do":"begin","s":0}
{"do":"commit","missed":[],"s":0,"v":51}
{"do":"begin","s":0}
{"do":"commit","missed":[],"s":0,"v":52}
{"do":"begin","s":0}
{"do":"commit","missed":[],"s":0,"v":53}
{"do":"begin","s":0}
{"do":"commit","missed":[],"s":0,"v":54}
{"do":"begin","s":0}
{"do":"commit","missed":[],"s":0,"v":55}
{"do":"begin","s":0}
{"do":"commit","missed":[],"s":0,"v":56}
{"do":"begin","s":0}
{"do":"commit","missed":[],"s":0,"v":57}
{"do":"begin","s":0}
{"do":"commit","missed":[],"s":0,"v":58}
{"do":"begin","s":0}
{"do":"commit","missed":[],"s":0,"v":59}
{"do":"begin","s":0}
{"do":"commit","missed":[],"s":0,"v":60}
{"do":"begin","s":0}
{"do":"commit","missed":[],"s":0,"v":61}
{"do":"begin","s":0}
{"do":"commit","missed":[],"s":0,"v":62}
{"do":"begin","s":0}
{"do":"commit","missed":[],"s":0,"v":63}
{"do":"begin","s":0}
{"do":"commit","missed":[],"s":0,"v":64}
{"do":"begin","s":0}
{"do":"commit","missed":[],"s":0,"v":65}
{"do":"begin","s":0}
{"do":"commit","missed":[],"s":0,"v":66}
{"do":"begin","s":0}
{"do":"commit","missed":[],"s":0,"v":67}
{"do":"begin","s":0}
{"do":"commit","missed":[],"s":0,"v":68}
{"do":"begin","s":0}
{"do":"commit","missed":[],"s":0,"v":69}
{"do":"begin","s":0}
{"do":"commit","missed":[],"s":0,"v":70}
{"do":"begin","s":0}
{"do":"commit","missed":[],"s":0,"v":71}
{"do":"begin","s":0}
{"do":"commit","missed":[],"s":0,"v":72}
{"do":"begin","s":0}
{"do":"commit","missed":[],"s":0,"v":73}
{"do":"begin","s":0}
{"do":"commit","missed":[],"s":0,"v":74}
{"do":"take","ops":[{"op":[{"na":1,"p":["n"]}],"seq":6,"src":"w","v":5},{"op":[{"na":1,"p":["n"]}],"seq":7,"src":"w","v":6},{"op":[{"na":1,"p":["n"]}],"seq":8,"src":"w","v":7},{"op":[{"na":1,"p":["n"]}],"seq":9,"src":"w","v":8},{"op":[{"na":1,"p":["n"]}],"seq":10,"src":"w","v":9},{"op":[{"na":1,"p":["n"]}],"seq":11,"src":"w","v":10},{"op":[{"na":1,"p":["n"]}],"seq":12,"src":"w","v":11},{"op":[{"na":1,"p":["n"]}],"seq":13,"src":"w","v":12},{"op":[{"na":1,"p":["n"]}],"seq":14,"src":"w","v":13},{"op":[{"na":1,"p":["n"]}],"seq":15,"src":"w","v":14},{"op":[{"na":1,"p":["n"]}],"seq":16,"src":"w","v":15},{"op":[{"na":1,"p":["n"]}],"seq":17,"src":"w","v":16},{"op":[{"na":1,"p":["n"]}],"seq":18,"src":"w","v":17},{"op":[{"na":1,"p":["n"]}],"seq":19,"src":"w","v":18},{"op":[{"na":1,"p":["n"]}],"seq":20,"src":"w","v":19},{"op":[{"na":1,"p":["n"]}],"seq":21,"src":"w","v":20},{"op":[{"na":1,"p":["n"]}],"seq":22,"src":"w","v":21},{"op":[{"na":1,"p":["n"]}],"seq":23,"src":"w","v":22},{"op":[{"na":1,"p":["n"]}],"seq":24,"src":"w","v":23},{"op":[{"na":1,"p":["n"]}],"seq":25,"src":"w","v":24},{"op":[{"na":1,"p":["n"]}],"seq":26,"src":"w","v":25},{"op":[{"na":1,"p":["n"]}],"seq":27,"src":"w","v":26},{"op":[{"na":1,"p":["n"]}],"seq":28,"src":"w","v":27},{"op":[{"na":1,"p":["n"]}],"seq":29,"src":"w","v":28},{"op":[{"na":1,"p":["n"]}],"seq":30,"src":"w","v":29},{"op":[{"na":1,"p":["n"]}],"seq":31,"src":"w","v":30},{"op":[{"na":1,"p":["n"]}],"seq":32,"src":"w","v":31},{"op":[{"na":1,"p":["n"]}],"seq":33,"src":"w","v":32},{"op":[{"na":1,"p":["n"]}],"seq":34,"src":"w","v":33},{"op":[{"na":1,"p":["n"]}],"seq":35,"src":"w","v":34},{"op":[{"na":1,"p":["n"]}],"seq":36,"src":"w","v":35},{"op":[{"na":1,"p":["n"]}],"seq":37,"src":"w","v":36},{"op":[{"na":1,"p":["n"]}],"seq":38,"src":"w","v":37},{"op":[{"na":1,"p":["n"]}],"seq":39,"src":"w","v":38},{"op":[{"na":1,"p":["n"]}],"seq":40,"src":"w","v":39},{"op":[{"na":1,"p":["n"]}],"seq":41,"src":"w","v":40},{"op":[{"na":1,"p":["n"]}],"seq":42,"src":"w","v":41},{"op":[{"na":1,"p":["n"]}],"seq":43,"src":"w","v":42},{"op":[{"na":1,"p":["n"]}],"seq":44,"src":"w","v":43},{"op":[{"na":1,"p":["n"]}],"seq":45,"src":"w","v":44},{"op":[{"na":1,"p":["n"]}],"seq":46,"src":"w","v":45},{"op":[{"na":1,"p":["n"]}],"seq":47,"src":"w","v":46},{"op":[{"na":1,"p":["n"]}],"seq":48,"src":"w","v":47},{"op":[{"na":1,"p":["n"]}],"seq":49,"src":"w","v":48},{"op":[{"na":1,"p":["n"]}],"seq":50,"src":"w","v":49},{"op":[{"na":1,"p":["n"]}],"seq":51,"src":"w","v":50},{"op":[{"na":1,"p":["n"]}],"seq":52,"src":"w","v":51},{"op":[{"na":1,"p":["n"]}],"seq":53,"src":"w","v":52},{"op":[{"na":1,"p":["n"]}],"seq":54,"src":"w","v":53},{"op":[{"na":1,"p":["n"]}],"seq":55,"src":"w","v":54},{"op":[{"na":1,"p":["n"]}],"seq":56,"src":"w","v":55},{"op":[{"na":1,"p":["n"]}],"seq":57,"src":"w","v":56},{"op":[{"na":1,"p":["n"]}],"seq":58,"src":"w","v":57},{"op":[{"na":1,"p":["n"]}],"seq":59,"src":"w","v":58},{"op":[{"na":1,"p":["n"]}],"seq":60,"src":"w","v":59},{"op":[{"na":1,"p":["n"]}],"seq":61,"src":"w","v":60},{"op":[{"na":1,"p":["n"]}],"seq":62,"src":"w","v":61},{"op":[{"na":1,"p":["n"]}],"seq":63,"src":"w","v":62},{"op":[{"na":1,"p":["n"]}],"seq":64,"src":"w","v":63},{"op":[{"na":1,"p":["n"]}],"seq":65,"src":"w","v":64},{"op":[{"na":1,"p":["n"]}],"seq":66,"src":"w","v":65},{"op":[{"na":1,"p":["n"]}],"seq":67,"src":"w","v":66},{"op":[{"na":1,"p":["n"]}],"seq":68,"src":"w","v":67},{"op":[{"na":1,"p":["n"]}],"seq":69,"src":"w","v":68},{"op":[{"na":1,"p":["n"]}],"seq":70,"src":"w","v":69},{"op":[{"na":1,"p":["n"]}],"seq":71,"src":"w","v":70},{"op":[{"na":1,"p":["n"]}],"seq":72,"src":"w","v":71},{"op":[{"na":1,"p":["n"]}],"seq":73,"src":"w","v":72},{"op":[{"na":1,"p":["n"]}],"seq":74,"src":"w","v":73},{"op":[{"na":1,"p":["n"]}],"seq":75,"src":"w","v":74}],"s":5}
"#;

const STEPS_REPEAT: &str =
    r#"{"s":0,"do":"begin","c":"b","d":"1","src":"w","seq":1,"create":{"type":"http://sharejs.org/types/JSONv0","data":{"n":0}}}
{"s":0,"do":"commit"}
{"s":1,"do":"begin","c":"b","d":"1","src":"x","seq":1,"v":1,"op":[{"p":["n"],"na":10}]}
{"s":2,"do":"begin","c":"b","d":"1","src":"x","seq":1,"v":1,"op":[{"p":["n"],"na":5}]}
{"s":1,"do":"work"}
{"s":2,"do":"work"}
{"s":2,"do":"commit"}
{"s":1,"do":"commit"}
{"s":1,"do":"work"}
{"s":1,"do":"commit"}
{"s":0,"do":"fetch","c":"b","d":"1"}
"#;

const STEPS_REPEAT_ANSWERS: &str = r#"{"do":"begin","s":0}
{"do":"commit","missed":[],"s":0,"v":0}
{"do":"begin","s":1}
{"do":"begin","s":2}
{"do":"work","s":1}
{"do":"work","s":2}
{"do":"commit","missed":[],"s":2,"v":1}
{"do":"moved","s":1}
{"do":"work","s":1}
{"do":"commit","missed":[],"s":1,"v":1}
{"data":{"n":5},"do":"fetch","s":0,"v":2}
"#;

const STEPS_REPEAT_REFUSED: &str =
    r#"{"s":0,"do":"begin","c":"b","d":"1","src":"w","seq":1,"create":{"type":"http://sharejs.org/types/JSONv0","data":{"n":0}}}
{"s":0,"do":"commit"}
{"s":1,"do":"begin","c":"b","d":"1","src":"x","seq":1,"v":1,"op":[{"p":["z"],"na":1}]}
{"s":2,"do":"begin","c":"b","d":"1","src":"x","seq":1,"v":1,"op":[{"p":["n"],"na":5}]}
{"s":1,"do":"work"}
{"s":2,"do":"work"}
{"s":2,"do":"commit"}
{"s":1,"do":"commit"}
{"s":1,"do":"work"}
{"s":1,"do":"commit"}
{"s":0,"do":"fetch","c":"b","d":"1"}
"#;

const STEPS_REPEAT_REFUSED_ANSWERS: &str = r#"{"do":"begin","s":0}
{"do":"commit","missed":[],"s":0,"v":0}
{"do":"begin","s":1}
{"do":"begin","s":2}
{"do":"work","s":1}
{"do":"work","s":2}
{"do":"commit","missed":[],"s":2,"v":1}
{"do":"moved","s":1}
{"do":"work","s":1}
{"do":"commit","missed":[],"s":1,"v":1}
{"data":{"n":5},"do":"fetch","s":0,"v":2}
"#;

const STEPS_RETRY: &str =
    r#"{"s":0,"do":"begin","c":"b","d":"1","src":"w","seq":1,"create":{"type":"http://sharejs.org/types/JSONv0","data":{"n":0}}}
{"s":0,"do":"commit"}
{"s":1,"do":"begin","c":"b","d":"1","src":"x","seq":1,"v":1,"op":[{"p":["n"],"na":10}]}
{"s":2,"do":"begin","c":"b","d":"1","src":"y","seq":1,"v":1,"op":[{"p":["n"],"na":5}]}
{"s":1,"do":"work"}
{"s":2,"do":"work"}
{"s":2,"do":"commit"}
{"s":1,"do":"commit"}
{"s":1,"do":"work"}
{"s":1,"do":"commit"}
{"s":0,"do":"fetch","c":"b","d":"1"}
"#;

const STEPS_RETRY_ANSWERS: &str = r#"{"do":"begin","s":0}
{"do":"commit","missed":[],"s":0,"v":0}
{"do":"begin","s":1}
{"do":"begin","s":2}
{"do":"work","s":1}
{"do":"work","s":2}
{"do":"commit","missed":[],"s":2,"v":1}
{"do":"moved","s":1}
{"do":"work","s":1}
{"do":"commit","missed":[{"op":[{"na":5,"p":["n"]}],"seq":1,"src":"y","v":1}],"s":1,"v":2}
{"data":{"n":15},"do":"fetch","s":0,"v":3}
"#;

// Each run: its name, its lines and the answers.
const STEP_RUNS: [(&str, &str, &str); 9] = [
    ("steps-cache", STEPS_CACHE, STEPS_CACHE_ANSWERS),
    ("steps-idle", STEPS_IDLE, STEPS_IDLE_ANSWERS),
    ("steps-moments", STEPS_MOMENTS, STEPS_MOMENTS_ANSWERS),
    ("steps-ninth", STEPS_NINTH, STEPS_NINTH_ANSWERS),
    (
        "steps-no-version",
        STEPS_NO_VERSION,
        STEPS_NO_VERSION_ANSWERS,
    ),
    ("steps-queue", STEPS_QUEUE, STEPS_QUEUE_ANSWERS),
    ("steps-repeat", STEPS_REPEAT, STEPS_REPEAT_ANSWERS),
    (
        "steps-repeat-refused",
        STEPS_REPEAT_REFUSED,
        STEPS_REPEAT_REFUSED_ANSWERS,
    ),
    ("steps-retry", STEPS_RETRY, STEPS_RETRY_ANSWERS),
];

// Returns the output of a run on these lines.
fn output_of_lines(rt: &impl Abort, alloc: Global, lines: &str) -> Vec<u8> {
    let mut reader = CountingReader::new(lines.as_bytes());
    let mut writer = CountingWriter::new(Vec::new(alloc));
    run(alloc, &mut reader, &mut writer).expect(rt, "out of memory");
    writer.stream
}

// Returns the steps among these lines.
fn steps_of(rt: &impl Abort, alloc: Global, lines: &str) -> Vec<Step> {
    let mut steps = Vec::new(alloc);
    for line in lines.lines() {
        if let Ok(step) = read_step(alloc, line) {
            steps.push(step).expect(rt, "out of memory");
        }
    }
    steps
}

// Appends the line that answers this one, which is a step if there is an answer.
fn write_line(
    rt: &impl Abort,
    alloc: Global,
    line: &str,
    answer: Option<&StepAnswer>,
    out: &mut Vec<u8>,
) {
    match read_step(alloc, line) {
        Ok(step) => {
            let answer = answer.expect(rt, "an answer");
            write_step_answer(alloc, step.session(), answer, out).expect(rt, "out of memory");
        }
        Err(code) => write_refusal(alloc, code, out).expect(rt, "out of memory"),
    }
    out.push(b'\n').expect(rt, "out of memory");
}

// Returns the answers to the list of the lines' steps, as lines.
fn output_of_steps(rt: &impl Abort, alloc: Global, lines: &str) -> Vec<u8> {
    let ran = run_steps(alloc, steps_of(rt, alloc, lines).as_slice()).expect(rt, "out of memory");
    let (mut out, mut next) = (Vec::new(alloc), 0usize);
    for line in lines.lines() {
        write_line(rt, alloc, line, ran.answers.get(next), &mut out);
        if read_step(alloc, line).is_ok() {
            next = next.saturating_add(1);
        }
    }
    out
}

#[test]
fn each_run_of_lines_is_answered_in_a_fresh_world(rt: HostRuntime) {
    for (name, lines, answers) in STEP_RUNS {
        let output = output_of_lines(&rt, rt.alloc(), lines);
        assert!(rt; output.as_slice() == answers.as_bytes(), "{name}");
    }
}

#[test]
fn each_list_of_steps_is_answered_in_a_fresh_world(rt: HostRuntime) {
    for (name, lines, answers) in STEP_RUNS {
        let output = output_of_steps(&rt, rt.alloc(), lines);
        assert!(rt; output.as_slice() == answers.as_bytes(), "{name}");
    }
}
