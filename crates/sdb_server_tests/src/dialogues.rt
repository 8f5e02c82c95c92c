//! Dialogues of one session, each on a fresh server: its lines, and every line that is answered.
use sdb_lines::{CountingReader, CountingWriter};
use sdb_projection::{Projection, Table};
use sdb_server::{LineSession, ListClock, run_lines};
use std::alloc::Global;
use std::collections::BTreeSet;
use std::process::Abort;

const ABSENT: &str = r#"{"a":"f","c":"b","d":"1"}
"#;

const ABSENT_ANSWERS: &str =
    r#"{"a":"init","id":"s1","protocol":1,"protocolMinor":1,"type":"http://sharejs.org/types/JSONv0"}
{"a":"f","c":"b","d":"1","data":{"type":null,"v":0}}
"#;

const BAD: &str =
    r#"{"a":"op","c":"b","d":"1","v":null,"src":"x","seq":1,"create":{"type":"http://sharejs.org/types/JSONv0","data":{"n":1}}}
{"a":"op"
{"a":"op","c":"b","d":"1","src":"x","seq":9,"op":[{"p":["k"],"oi":1.5}]}
{"a":"op","c":"b","d":"1","src":"x","seq":9,"op":[{"p":["a","a","a","a","a","a","a","a","a","a","a","a","a","a","a","a","a","a","a","a","a","a","a","a","a","a","a","a","a","a","a","a","a","a","a","a","a","a","a","a","a","a","a","a","a","a","a","a","a","a","a"],"oi":1}]}
{"a":"op","c":"b","d":"1","src":"x","seq":9,"create":{"type":"text"}}
{"a":"f","c":"b","d":"1"}
"#;

const BAD_ANSWERS: &str =
    r#"{"a":"init","id":"s1","protocol":1,"protocolMinor":1,"type":"http://sharejs.org/types/JSONv0"}
{"a":"op","c":"b","d":"1","seq":1,"src":"x","v":0}
{"error":{"code":"ERR_MESSAGE_BADLY_FORMED","message":"message is badly formed"}}
{"a":"op","c":"b","d":"1","error":{"code":"ERR_OT_OP_BADLY_FORMED","message":"operation is badly formed"},"seq":9,"src":"x"}
{"a":"op","c":"b","d":"1","error":{"code":"ERR_OT_OP_BADLY_FORMED","message":"operation is badly formed"},"seq":9,"src":"x"}
{"a":"op","c":"b","d":"1","error":{"code":"ERR_DOC_TYPE_NOT_RECOGNIZED","message":"document type is not recognized"},"seq":9,"src":"x"}
{"a":"f","c":"b","d":"1","data":{"data":{"n":1},"v":1}}
"#;

const BAD_TEXTS: &str = r#"[]
{"x":"\ud800"}
{"a":"op","c":"b","seq":1}
{"a":"zz","id":3}

{"a":"op","c":"b","d":"1","src":"x","seq":1,"op":[],"del":true}
"#;

const BAD_TEXTS_ANSWERS: &str =
    r#"{"a":"init","id":"s1","protocol":1,"protocolMinor":1,"type":"http://sharejs.org/types/JSONv0"}
{"error":{"code":"ERR_MESSAGE_BADLY_FORMED","message":"message is badly formed"}}
{"error":{"code":"ERR_MESSAGE_BADLY_FORMED","message":"message is badly formed"}}
{"a":"op","c":"b","error":{"code":"ERR_MESSAGE_BADLY_FORMED","message":"message is badly formed"},"seq":1}
{"a":"zz","error":{"code":"ERR_MESSAGE_BADLY_FORMED","message":"message is badly formed"},"id":3}
{"error":{"code":"ERR_MESSAGE_BADLY_FORMED","message":"message is badly formed"}}
{"a":"op","c":"b","d":"1","error":{"code":"ERR_MESSAGE_BADLY_FORMED","message":"message is badly formed"},"seq":1,"src":"x"}
"#;

const CREATE_FETCH: &str =
    r#"{"a":"op","c":"b","d":"1","v":null,"src":"x","seq":1,"create":{"type":"http://sharejs.org/types/JSONv0","data":{"n":1}}}
{"a":"f","c":"b","d":"1"}
"#;

const CREATE_FETCH_ANSWERS: &str =
    r#"{"a":"init","id":"s1","protocol":1,"protocolMinor":1,"type":"http://sharejs.org/types/JSONv0"}
{"a":"op","c":"b","d":"1","seq":1,"src":"x","v":0}
{"a":"f","c":"b","d":"1","data":{"data":{"n":1},"v":1}}
"#;

const DELETE: &str =
    r#"{"a":"op","c":"b","d":"11","src":"x","seq":1,"create":{"type":"http://sharejs.org/types/JSONv0","data":{}}}
{"a":"op","c":"b","d":"11","v":1,"src":"y","seq":1,"del":true}
{"a":"op","c":"b","d":"11","v":1,"src":"z","seq":1,"op":[]}
{"a":"op","c":"b","d":"11","v":1,"src":"z","seq":2,"del":true}
{"a":"f","c":"b","d":"11"}
"#;

const DELETE_ANSWERS: &str =
    r#"{"a":"init","id":"s1","protocol":1,"protocolMinor":1,"type":"http://sharejs.org/types/JSONv0"}
{"a":"op","c":"b","d":"11","seq":1,"src":"x","v":0}
{"a":"op","c":"b","d":"11","seq":1,"src":"y","v":1}
{"a":"op","c":"b","d":"11","error":{"code":"ERR_DOC_WAS_DELETED","message":"document was deleted"},"seq":1,"src":"z"}
{"a":"op","c":"b","d":"11","del":true,"seq":1,"src":"y","v":1}
{"a":"op","c":"b","d":"11","seq":2,"src":"z","v":2}
{"a":"f","c":"b","d":"11","data":{"type":null,"v":3}}
"#;

const DROPPED: &str =
    r#"{"a":"op","c":"b","d":"9","src":"x","seq":1,"create":{"type":"http://sharejs.org/types/JSONv0","data":[{"n":1}]}}
{"a":"op","c":"b","d":"9","v":1,"src":"y","seq":1,"op":[{"p":[0],"ld":{"n":1}}]}
{"a":"op","c":"b","d":"9","v":1,"src":"z","seq":1,"op":[{"p":[0,"n"],"na":1}]}
{"a":"f","c":"b","d":"9","v":2}
{"a":"f","c":"b","d":"9"}
"#;

const DROPPED_ANSWERS: &str =
    r#"{"a":"init","id":"s1","protocol":1,"protocolMinor":1,"type":"http://sharejs.org/types/JSONv0"}
{"a":"op","c":"b","d":"9","seq":1,"src":"x","v":0}
{"a":"op","c":"b","d":"9","seq":1,"src":"y","v":1}
{"a":"op","c":"b","d":"9","op":[{"ld":{"n":1},"p":[0]}],"seq":1,"src":"y","v":1}
{"a":"op","c":"b","d":"9","seq":1,"src":"z","v":2}
{"a":"op","c":"b","d":"9","op":[],"seq":1,"src":"z","v":2}
{"a":"f","c":"b","d":"9"}
{"a":"f","c":"b","d":"9","data":{"data":[],"v":3}}
"#;

const GREATEST: &str =
    r#"{"a":"op","c":"b","d":"4","src":"x","seq":1,"create":{"type":"http://sharejs.org/types/JSONv0","data":{"n":9007199254740991}}}
{"a":"op","c":"b","d":"4","v":1,"src":"x","seq":2,"op":[{"p":["n"],"na":1}]}
{"a":"f","c":"b","d":"4"}
"#;

const GREATEST_ANSWERS: &str =
    r#"{"a":"init","id":"s1","protocol":1,"protocolMinor":1,"type":"http://sharejs.org/types/JSONv0"}
{"a":"op","c":"b","d":"4","seq":1,"src":"x","v":0}
{"a":"op","c":"b","d":"4","error":{"code":"ERR_OT_OP_NOT_APPLIED","message":"operation can not be applied"},"seq":2,"src":"x"}
{"a":"f","c":"b","d":"4","data":{"data":{"n":9007199254740991},"v":1}}
"#;

const HANDSHAKE: &str = r#"{"a":"hs","id":"q","protocol":1}
"#;

const HANDSHAKE_ANSWERS: &str =
    r#"{"a":"init","id":"s1","protocol":1,"protocolMinor":1,"type":"http://sharejs.org/types/JSONv0"}
{"a":"hs","id":"q","protocol":1,"protocolMinor":1,"type":"http://sharejs.org/types/JSONv0"}
"#;

const INSERT_INSERT: &str =
    r#"{"a":"op","c":"b","d":"6","src":"x","seq":1,"create":{"type":"http://sharejs.org/types/JSONv0","data":{}}}
{"a":"op","c":"b","d":"6","v":1,"src":"y","seq":1,"op":[{"p":["k"],"oi":1}]}
{"a":"op","c":"b","d":"6","v":1,"src":"z","seq":1,"op":[{"p":["k"],"oi":2}]}
{"a":"f","c":"b","d":"6","v":2}
"#;

const INSERT_INSERT_ANSWERS: &str =
    r#"{"a":"init","id":"s1","protocol":1,"protocolMinor":1,"type":"http://sharejs.org/types/JSONv0"}
{"a":"op","c":"b","d":"6","seq":1,"src":"x","v":0}
{"a":"op","c":"b","d":"6","seq":1,"src":"y","v":1}
{"a":"op","c":"b","d":"6","op":[{"oi":1,"p":["k"]}],"seq":1,"src":"y","v":1}
{"a":"op","c":"b","d":"6","seq":1,"src":"z","v":2}
{"a":"op","c":"b","d":"6","op":[{"od":1,"oi":2,"p":["k"]}],"seq":1,"src":"z","v":2}
{"a":"f","c":"b","d":"6"}
"#;

const LEFT: &str =
    r#"{"a":"op","c":"b","d":"5","src":"x","seq":1,"create":{"type":"http://sharejs.org/types/JSONv0","data":["x"]}}
{"a":"op","c":"b","d":"5","v":1,"src":"y","seq":1,"op":[{"p":[0],"li":"A"}]}
{"a":"op","c":"b","d":"5","v":1,"src":"z","seq":1,"op":[{"p":[0],"li":"B"}]}
{"a":"f","c":"b","d":"5"}
"#;

const LEFT_ANSWERS: &str =
    r#"{"a":"init","id":"s1","protocol":1,"protocolMinor":1,"type":"http://sharejs.org/types/JSONv0"}
{"a":"op","c":"b","d":"5","seq":1,"src":"x","v":0}
{"a":"op","c":"b","d":"5","seq":1,"src":"y","v":1}
{"a":"op","c":"b","d":"5","op":[{"li":"A","p":[0]}],"seq":1,"src":"y","v":1}
{"a":"op","c":"b","d":"5","seq":1,"src":"z","v":2}
{"a":"f","c":"b","d":"5","data":{"data":["B","A","x"],"v":3}}
"#;

const LENIENT: &str =
    r#"{"a":"op","c":"b","d":"17","src":"x","seq":1,"create":{"type":"http://sharejs.org/types/JSONv0","data":{"k":1}}}
{"a":"op","c":"b","d":"17","v":1,"src":"x","seq":2,"op":[{"p":["k"],"oi":2},{"p":["z"],"od":5}]}
{"a":"f","c":"b","d":"17"}
{"a":"op","c":"b","d":"18","src":"x","seq":1,"op":[]}
"#;

const LENIENT_ANSWERS: &str =
    r#"{"a":"init","id":"s1","protocol":1,"protocolMinor":1,"type":"http://sharejs.org/types/JSONv0"}
{"a":"op","c":"b","d":"17","seq":1,"src":"x","v":0}
{"a":"op","c":"b","d":"17","seq":2,"src":"x","v":1}
{"a":"f","c":"b","d":"17","data":{"data":{"k":2},"v":2}}
{"a":"op","c":"b","d":"18","error":{"code":"ERR_DOC_DOES_NOT_EXIST","message":"document does not exist"},"seq":1,"src":"x"}
"#;

const LIMIT_64: &str = r#"{"a":"s","c":"b","d":"k0"}
{"a":"s","c":"b","d":"k1"}
{"a":"s","c":"b","d":"k2"}
{"a":"s","c":"b","d":"k3"}
{"a":"s","c":"b","d":"k4"}
{"a":"s","c":"b","d":"k5"}
{"a":"s","c":"b","d":"k6"}
{"a":"s","c":"b","d":"k7"}
{"a":"s","c":"b","d":"k8"}
{"a":"s","c":"b","d":"k9"}
{"a":"s","c":"b","d":"k10"}
{"a":"s","c":"b","d":"k11"}
{"a":"s","c":"b","d":"k12"}
{"a":"s","c":"b","d":"k13"}
{"a":"s","c":"b","d":"k14"}
{"a":"s","c":"b","d":"k15"}
{"a":"s","c":"b","d":"k16"}
{"a":"s","c":"b","d":"k17"}
{"a":"s","c":"b","d":"k18"}
{"a":"s","c":"b","d":"k19"}
{"a":"s","c":"b","d":"k20"}
{"a":"s","c":"b","d":"k21"}
{"a":"s","c":"b","d":"k22"}
{"a":"s","c":"b","d":"k23"}
{"a":"s","c":"b","d":"k24"}
{"a":"s","c":"b","d":"k25"}
{"a":"s","c":"b","d":"k26"}
{"a":"s","c":"b","d":"k27"}
{"a":"s","c":"b","d":"k28"}
{"a":"s","c":"b","d":"k29"}
{"a":"s","c":"b","d":"k30"}
{"a":"s","c":"b","d":"k31"}
{"a":"s","c":"b","d":"k32"}
{"a":"s","c":"b","d":"k33"}
{"a":"s","c":"b","d":"k34"}
{"a":"s","c":"b","d":"k35"}
{"a":"s","c":"b","d":"k36"}
{"a":"s","c":"b","d":"k37"}
{"a":"s","c":"b","d":"k38"}
{"a":"s","c":"b","d":"k39"}
{"a":"s","c":"b","d":"k40"}
{"a":"s","c":"b","d":"k41"}
{"a":"s","c":"b","d":"k42"}
{"a":"s","c":"b","d":"k43"}
{"a":"s","c":"b","d":"k44"}
{"a":"s","c":"b","d":"k45"}
{"a":"s","c":"b","d":"k46"}
{"a":"s","c":"b","d":"k47"}
{"a":"s","c":"b","d":"k48"}
{"a":"s","c":"b","d":"k49"}
{"a":"s","c":"b","d":"k50"}
{"a":"s","c":"b","d":"k51"}
{"a":"s","c":"b","d":"k52"}
{"a":"s","c":"b","d":"k53"}
{"a":"s","c":"b","d":"k54"}
{"a":"s","c":"b","d":"k55"}
{"a":"s","c":"b","d":"k56"}
{"a":"s","c":"b","d":"k57"}
{"a":"s","c":"b","d":"k58"}
{"a":"s","c":"b","d":"k59"}
{"a":"s","c":"b","d":"k60"}
{"a":"s","c":"b","d":"k61"}
{"a":"s","c":"b","d":"k62"}
{"a":"s","c":"b","d":"k63"}
{"a":"s","c":"b","d":"more","v":1}
{"a":"s","c":"b","d":"more"}
{"a":"s","c":"b","d":"k0"}
"#;

const LIMIT_64_ANSWERS: &str =
    r#"{"a":"init","id":"s1","protocol":1,"protocolMinor":1,"type":"http://sharejs.org/types/JSONv0"}
{"a":"s","c":"b","d":"k0","data":{"type":null,"v":0}}
{"a":"s","c":"b","d":"k1","data":{"type":null,"v":0}}
{"a":"s","c":"b","d":"k2","data":{"type":null,"v":0}}
{"a":"s","c":"b","d":"k3","data":{"type":null,"v":0}}
{"a":"s","c":"b","d":"k4","data":{"type":null,"v":0}}
{"a":"s","c":"b","d":"k5","data":{"type":null,"v":0}}
{"a":"s","c":"b","d":"k6","data":{"type":null,"v":0}}
{"a":"s","c":"b","d":"k7","data":{"type":null,"v":0}}
{"a":"s","c":"b","d":"k8","data":{"type":null,"v":0}}
{"a":"s","c":"b","d":"k9","data":{"type":null,"v":0}}
{"a":"s","c":"b","d":"k10","data":{"type":null,"v":0}}
{"a":"s","c":"b","d":"k11","data":{"type":null,"v":0}}
{"a":"s","c":"b","d":"k12","data":{"type":null,"v":0}}
{"a":"s","c":"b","d":"k13","data":{"type":null,"v":0}}
{"a":"s","c":"b","d":"k14","data":{"type":null,"v":0}}
{"a":"s","c":"b","d":"k15","data":{"type":null,"v":0}}
{"a":"s","c":"b","d":"k16","data":{"type":null,"v":0}}
{"a":"s","c":"b","d":"k17","data":{"type":null,"v":0}}
{"a":"s","c":"b","d":"k18","data":{"type":null,"v":0}}
{"a":"s","c":"b","d":"k19","data":{"type":null,"v":0}}
{"a":"s","c":"b","d":"k20","data":{"type":null,"v":0}}
{"a":"s","c":"b","d":"k21","data":{"type":null,"v":0}}
{"a":"s","c":"b","d":"k22","data":{"type":null,"v":0}}
{"a":"s","c":"b","d":"k23","data":{"type":null,"v":0}}
{"a":"s","c":"b","d":"k24","data":{"type":null,"v":0}}
{"a":"s","c":"b","d":"k25","data":{"type":null,"v":0}}
{"a":"s","c":"b","d":"k26","data":{"type":null,"v":0}}
{"a":"s","c":"b","d":"k27","data":{"type":null,"v":0}}
{"a":"s","c":"b","d":"k28","data":{"type":null,"v":0}}
{"a":"s","c":"b","d":"k29","data":{"type":null,"v":0}}
{"a":"s","c":"b","d":"k30","data":{"type":null,"v":0}}
{"a":"s","c":"b","d":"k31","data":{"type":null,"v":0}}
{"a":"s","c":"b","d":"k32","data":{"type":null,"v":0}}
{"a":"s","c":"b","d":"k33","data":{"type":null,"v":0}}
{"a":"s","c":"b","d":"k34","data":{"type":null,"v":0}}
{"a":"s","c":"b","d":"k35","data":{"type":null,"v":0}}
{"a":"s","c":"b","d":"k36","data":{"type":null,"v":0}}
{"a":"s","c":"b","d":"k37","data":{"type":null,"v":0}}
{"a":"s","c":"b","d":"k38","data":{"type":null,"v":0}}
{"a":"s","c":"b","d":"k39","data":{"type":null,"v":0}}
{"a":"s","c":"b","d":"k40","data":{"type":null,"v":0}}
{"a":"s","c":"b","d":"k41","data":{"type":null,"v":0}}
{"a":"s","c":"b","d":"k42","data":{"type":null,"v":0}}
{"a":"s","c":"b","d":"k43","data":{"type":null,"v":0}}
{"a":"s","c":"b","d":"k44","data":{"type":null,"v":0}}
{"a":"s","c":"b","d":"k45","data":{"type":null,"v":0}}
{"a":"s","c":"b","d":"k46","data":{"type":null,"v":0}}
{"a":"s","c":"b","d":"k47","data":{"type":null,"v":0}}
{"a":"s","c":"b","d":"k48","data":{"type":null,"v":0}}
{"a":"s","c":"b","d":"k49","data":{"type":null,"v":0}}
{"a":"s","c":"b","d":"k50","data":{"type":null,"v":0}}
{"a":"s","c":"b","d":"k51","data":{"type":null,"v":0}}
{"a":"s","c":"b","d":"k52","data":{"type":null,"v":0}}
{"a":"s","c":"b","d":"k53","data":{"type":null,"v":0}}
{"a":"s","c":"b","d":"k54","data":{"type":null,"v":0}}
{"a":"s","c":"b","d":"k55","data":{"type":null,"v":0}}
{"a":"s","c":"b","d":"k56","data":{"type":null,"v":0}}
{"a":"s","c":"b","d":"k57","data":{"type":null,"v":0}}
{"a":"s","c":"b","d":"k58","data":{"type":null,"v":0}}
{"a":"s","c":"b","d":"k59","data":{"type":null,"v":0}}
{"a":"s","c":"b","d":"k60","data":{"type":null,"v":0}}
{"a":"s","c":"b","d":"k61","data":{"type":null,"v":0}}
{"a":"s","c":"b","d":"k62","data":{"type":null,"v":0}}
{"a":"s","c":"b","d":"k63","data":{"type":null,"v":0}}
{"a":"s","c":"b","d":"more","error":{"code":"ERR_OP_VERSION_NEWER_THAN_CURRENT_SNAPSHOT","message":"version is newer than the current snapshot"}}
{"a":"s","c":"b","d":"more","error":{"code":"ERR_LIMIT","message":"limit reached"}}
{"a":"s","c":"b","d":"k0","data":{"type":null,"v":0}}
"#;

const PAIRS: &str =
    r#"{"a":"op","c":"b","d":"8","src":"x","seq":1,"create":{"type":"http://sharejs.org/types/JSONv0","data":"a😀b"}}
{"a":"op","c":"b","d":"8","v":1,"src":"x","seq":2,"op":[{"p":[2],"si":"-"}]}
{"a":"op","c":"b","d":"8","v":1,"src":"x","seq":3,"op":[{"p":[3],"si":"-"}]}
{"a":"f","c":"b","d":"8"}
"#;

const PAIRS_ANSWERS: &str =
    r#"{"a":"init","id":"s1","protocol":1,"protocolMinor":1,"type":"http://sharejs.org/types/JSONv0"}
{"a":"op","c":"b","d":"8","seq":1,"src":"x","v":0}
{"a":"op","c":"b","d":"8","error":{"code":"ERR_OT_OP_NOT_APPLIED","message":"operation can not be applied"},"seq":2,"src":"x"}
{"a":"op","c":"b","d":"8","seq":3,"src":"x","v":1}
{"a":"f","c":"b","d":"8","data":{"data":"a😀-b","v":2}}
"#;

const PROJECTION: &str =
    r#"{"a":"op","c":"b","d":"16","src":"x","seq":1,"create":{"type":"http://sharejs.org/types/JSONv0","data":{"n":1,"title":"q"}}}
{"a":"s","c":"t","d":"16"}
{"a":"op","c":"t","d":"16","v":1,"src":"x","seq":2,"op":[{"p":["n"],"na":1}]}
{"a":"op","c":"b","d":"16","v":1,"src":"x","seq":3,"op":[{"p":["n"],"na":1}]}
"#;

const PROJECTION_ANSWERS: &str =
    r#"{"a":"init","id":"s1","protocol":1,"protocolMinor":1,"type":"http://sharejs.org/types/JSONv0"}
{"a":"op","c":"b","d":"16","seq":1,"src":"x","v":0}
{"a":"s","c":"t","d":"16","data":{"data":{"title":"q"},"v":1}}
{"a":"op","c":"t","d":"16","error":{"code":"ERR_OP_NOT_ALLOWED_IN_PROJECTION","message":"operation is not allowed in the projection"},"seq":2,"src":"x"}
{"a":"op","c":"b","d":"16","seq":3,"src":"x","v":1}
{"a":"op","c":"t","d":"16","op":[],"seq":3,"src":"x","v":1}
"#;

const PROJECTION_OWN: &str =
    r#"{"a":"op","c":"b","d":"16","src":"x","seq":1,"create":{"type":"http://sharejs.org/types/JSONv0","data":{"n":1,"title":"q"}}}
{"a":"s","c":"t","d":"16"}
{"a":"op","c":"t","d":"16","v":1,"src":"x","seq":2,"op":[{"p":["n"],"na":1}]}
{"a":"op","c":"b","d":"16","v":1,"src":"x","seq":3,"op":[{"p":["n"],"na":1}]}
{"a":"op","c":"b","d":"16","v":2,"seq":1,"op":[{"p":["title",0],"si":"a"}]}
{"a":"op","c":"t","d":"16","v":3,"seq":2,"op":[]}
"#;

const PROJECTION_OWN_ANSWERS: &str =
    r#"{"a":"init","id":"s1","protocol":1,"protocolMinor":1,"type":"http://sharejs.org/types/JSONv0"}
{"a":"op","c":"b","d":"16","seq":1,"src":"x","v":0}
{"a":"s","c":"t","d":"16","data":{"data":{"title":"q"},"v":1}}
{"a":"op","c":"t","d":"16","error":{"code":"ERR_OP_NOT_ALLOWED_IN_PROJECTION","message":"operation is not allowed in the projection"},"seq":2,"src":"x"}
{"a":"op","c":"b","d":"16","seq":3,"src":"x","v":1}
{"a":"op","c":"t","d":"16","op":[],"seq":3,"src":"x","v":1}
{"a":"op","c":"b","d":"16","seq":1,"src":"s1","v":2}
{"a":"op","c":"t","d":"16","op":[{"p":["title",0],"si":"a"}],"seq":1,"src":"s1","v":2}
{"a":"op","c":"t","d":"16","seq":2,"src":"s1","v":3}
"#;

const REMOVED_VALUE: &str =
    r#"{"a":"op","c":"b","d":"10","src":"x","seq":1,"create":{"type":"http://sharejs.org/types/JSONv0","data":[{"n":1}]}}
{"a":"op","c":"b","d":"10","v":1,"src":"y","seq":1,"op":[{"p":[0,"n"],"na":1}]}
{"a":"op","c":"b","d":"10","v":1,"src":"z","seq":1,"op":[{"p":[0],"ld":{"n":1}}]}
{"a":"f","c":"b","d":"10","v":2}
{"a":"f","c":"b","d":"10"}
"#;

const REMOVED_VALUE_ANSWERS: &str =
    r#"{"a":"init","id":"s1","protocol":1,"protocolMinor":1,"type":"http://sharejs.org/types/JSONv0"}
{"a":"op","c":"b","d":"10","seq":1,"src":"x","v":0}
{"a":"op","c":"b","d":"10","seq":1,"src":"y","v":1}
{"a":"op","c":"b","d":"10","op":[{"na":1,"p":[0,"n"]}],"seq":1,"src":"y","v":1}
{"a":"op","c":"b","d":"10","seq":1,"src":"z","v":2}
{"a":"op","c":"b","d":"10","op":[{"ld":{"n":2},"p":[0]}],"seq":1,"src":"z","v":2}
{"a":"f","c":"b","d":"10"}
{"a":"f","c":"b","d":"10","data":{"data":[],"v":3}}
"#;

const REPEAT: &str =
    r#"{"a":"op","c":"b","d":"1","v":null,"src":"x","seq":1,"create":{"type":"http://sharejs.org/types/JSONv0","data":{"n":1}}}
{"a":"op","c":"b","d":"1","src":"x","seq":2,"op":[{"p":["n"],"na":1}]}
{"a":"op","c":"b","d":"1","src":"x","seq":3,"op":[{"p":["n"],"na":1}]}
{"a":"op","c":"b","d":"1","src":"x","seq":4,"op":[{"p":["n"],"na":1}]}
{"a":"op","c":"b","d":"1","src":"x","seq":5,"op":[{"p":["n"],"na":1}]}
{"a":"op","c":"b","d":"1","src":"x","seq":6,"op":[{"p":["n"],"na":1}]}
{"a":"op","c":"b","d":"1","src":"x","seq":7,"op":[{"p":["n"],"na":1}]}
{"a":"op","c":"b","d":"1","src":"x","seq":8,"op":[{"p":["n"],"na":1}]}
{"a":"op","c":"b","d":"1","src":"x","seq":9,"op":[{"p":["n"],"na":1}]}
{"a":"op","c":"b","d":"1","src":"x","seq":10,"op":[{"p":["n"],"na":1}]}
{"a":"op","c":"b","d":"1","src":"x","seq":11,"op":[{"p":["n"],"na":1}]}
{"a":"op","c":"b","d":"1","v":null,"src":"x","seq":1,"create":{"type":"http://sharejs.org/types/JSONv0","data":{"n":1}}}
{"a":"f","c":"b","d":"1"}
"#;

const REPEAT_ANSWERS: &str =
    r#"{"a":"init","id":"s1","protocol":1,"protocolMinor":1,"type":"http://sharejs.org/types/JSONv0"}
{"a":"op","c":"b","d":"1","seq":1,"src":"x","v":0}
{"a":"op","c":"b","d":"1","seq":2,"src":"x","v":1}
{"a":"op","c":"b","d":"1","seq":3,"src":"x","v":2}
{"a":"op","c":"b","d":"1","seq":4,"src":"x","v":3}
{"a":"op","c":"b","d":"1","seq":5,"src":"x","v":4}
{"a":"op","c":"b","d":"1","seq":6,"src":"x","v":5}
{"a":"op","c":"b","d":"1","seq":7,"src":"x","v":6}
{"a":"op","c":"b","d":"1","seq":8,"src":"x","v":7}
{"a":"op","c":"b","d":"1","seq":9,"src":"x","v":8}
{"a":"op","c":"b","d":"1","seq":10,"src":"x","v":9}
{"a":"op","c":"b","d":"1","seq":11,"src":"x","v":10}
{"a":"op","c":"b","d":"1","seq":1,"src":"x","v":0}
{"a":"f","c":"b","d":"1","data":{"data":{"n":11},"v":11}}
"#;

const SNAPSHOTS: &str =
    r#"{"a":"op","c":"b","d":"1","v":null,"src":"x","seq":1,"create":{"type":"http://sharejs.org/types/JSONv0","data":{"n":1}}}
{"a":"nf","id":7,"c":"b","d":"1","v":0}
{"a":"nf","id":8,"c":"b","d":"1","v":1}
{"a":"nf","id":9,"c":"b","d":"1","v":2}
"#;

const SNAPSHOTS_ANSWERS: &str =
    r#"{"a":"init","id":"s1","protocol":1,"protocolMinor":1,"type":"http://sharejs.org/types/JSONv0"}
{"a":"op","c":"b","d":"1","seq":1,"src":"x","v":0}
{"a":"nf","id":7,"type":null,"v":0}
{"a":"nf","data":{"n":1},"id":8,"type":"http://sharejs.org/types/JSONv0","v":1}
{"a":"nf","c":"b","d":"1","error":{"code":"ERR_OP_VERSION_NEWER_THAN_CURRENT_SNAPSHOT","message":"version is newer than the current snapshot"},"id":9}
"#;

const SPLIT: &str =
    r#"{"a":"op","c":"b","d":"7","src":"x","seq":1,"create":{"type":"http://sharejs.org/types/JSONv0","data":"abcdef"}}
{"a":"op","c":"b","d":"7","v":1,"src":"y","seq":1,"op":[{"p":[3],"si":"XYZ"}]}
{"a":"op","c":"b","d":"7","v":1,"src":"z","seq":1,"op":[{"p":[1],"sd":"bcde"}]}
{"a":"f","c":"b","d":"7","v":2}
{"a":"f","c":"b","d":"7"}
"#;

const SPLIT_ANSWERS: &str =
    r#"{"a":"init","id":"s1","protocol":1,"protocolMinor":1,"type":"http://sharejs.org/types/JSONv0"}
{"a":"op","c":"b","d":"7","seq":1,"src":"x","v":0}
{"a":"op","c":"b","d":"7","seq":1,"src":"y","v":1}
{"a":"op","c":"b","d":"7","op":[{"p":[3],"si":"XYZ"}],"seq":1,"src":"y","v":1}
{"a":"op","c":"b","d":"7","seq":1,"src":"z","v":2}
{"a":"op","c":"b","d":"7","op":[{"p":[1],"sd":"bc"},{"p":[4],"sd":"de"}],"seq":1,"src":"z","v":2}
{"a":"f","c":"b","d":"7"}
{"a":"f","c":"b","d":"7","data":{"data":"aXYZf","v":3}}
"#;

const SUBSCRIBE_FROM: &str =
    r#"{"a":"op","c":"b","d":"1","v":null,"src":"x","seq":1,"create":{"type":"http://sharejs.org/types/JSONv0","data":{"n":1}}}
{"a":"s","c":"b","d":"1","v":0}
"#;

const SUBSCRIBE_FROM_ANSWERS: &str =
    r#"{"a":"init","id":"s1","protocol":1,"protocolMinor":1,"type":"http://sharejs.org/types/JSONv0"}
{"a":"op","c":"b","d":"1","seq":1,"src":"x","v":0}
{"a":"op","c":"b","create":{"data":{"n":1},"type":"http://sharejs.org/types/JSONv0"},"d":"1","seq":1,"src":"x","v":0}
{"a":"s","c":"b","d":"1"}
"#;

const SUBSCRIPTION: &str =
    r#"{"a":"op","c":"b","d":"1","v":null,"src":"x","seq":1,"create":{"type":"http://sharejs.org/types/JSONv0","data":{"n":1}}}
{"a":"s","c":"b","d":"1","v":null}
{"a":"op","c":"b","d":"1","v":1,"src":"y","seq":1,"op":[{"p":["n"],"na":1}]}
{"a":"op","c":"b","d":"1","v":2,"seq":1,"op":[]}
"#;

const SUBSCRIPTION_ANSWERS: &str =
    r#"{"a":"init","id":"s1","protocol":1,"protocolMinor":1,"type":"http://sharejs.org/types/JSONv0"}
{"a":"op","c":"b","d":"1","seq":1,"src":"x","v":0}
{"a":"s","c":"b","d":"1","data":{"data":{"n":1},"v":1}}
{"a":"op","c":"b","d":"1","seq":1,"src":"y","v":1}
{"a":"op","c":"b","d":"1","op":[{"na":1,"p":["n"]}],"seq":1,"src":"y","v":1}
{"a":"op","c":"b","d":"1","seq":1,"src":"s1","v":2}
"#;

// Each dialogue without a projection: its name, its lines and the answers.
const DIALOGUES: [(&str, &str, &str); 19] = [
    ("absent", ABSENT, ABSENT_ANSWERS),
    ("bad", BAD, BAD_ANSWERS),
    ("bad-texts", BAD_TEXTS, BAD_TEXTS_ANSWERS),
    ("create-fetch", CREATE_FETCH, CREATE_FETCH_ANSWERS),
    ("delete", DELETE, DELETE_ANSWERS),
    ("dropped", DROPPED, DROPPED_ANSWERS),
    ("greatest", GREATEST, GREATEST_ANSWERS),
    ("handshake", HANDSHAKE, HANDSHAKE_ANSWERS),
    ("insert-insert", INSERT_INSERT, INSERT_INSERT_ANSWERS),
    ("left", LEFT, LEFT_ANSWERS),
    ("lenient", LENIENT, LENIENT_ANSWERS),
    ("limit-64", LIMIT_64, LIMIT_64_ANSWERS),
    ("pairs", PAIRS, PAIRS_ANSWERS),
    ("removed-value", REMOVED_VALUE, REMOVED_VALUE_ANSWERS),
    ("repeat", REPEAT, REPEAT_ANSWERS),
    ("snapshots", SNAPSHOTS, SNAPSHOTS_ANSWERS),
    ("split", SPLIT, SPLIT_ANSWERS),
    ("subscribe-from", SUBSCRIBE_FROM, SUBSCRIBE_FROM_ANSWERS),
    ("subscription", SUBSCRIPTION, SUBSCRIPTION_ANSWERS),
];

// The dialogues of a server where `t` projects the field `title` of `b`.
const PROJECTED_DIALOGUES: [(&str, &str, &str); 2] = [
    ("projection", PROJECTION, PROJECTION_ANSWERS),
    ("projection-own", PROJECTION_OWN, PROJECTION_OWN_ANSWERS),
];

fn text(rt: &impl Abort, alloc: Global, text: &str) -> String {
    String::from_str(alloc, text).expect(rt, "out of memory")
}

// Returns a table in which `t` projects the field `title` of `b`.
fn title_table(rt: &impl Abort, alloc: Global) -> Table {
    let mut fields = BTreeSet::new(alloc);
    fields
        .insert(text(rt, alloc, "title"))
        .expect(rt, "out of memory");
    let projection = Projection {
        name: text(rt, alloc, "t"),
        base: text(rt, alloc, "b"),
        fields,
    };
    let mut table = Table::new(alloc);
    assert!(rt; table.add(projection).is_ok());
    table
}

// Returns whether a session at a fresh server answers these lines with this text.
fn is_answered(alloc: Global, table: &Table, lines: &str, answers: &str) -> bool {
    let mut reader = CountingReader::new(lines.as_bytes());
    let mut writer = CountingWriter::new(Vec::new(alloc));
    let clock = ListClock::new(Vec::new(alloc));
    let Ok(mut session) = LineSession::new(alloc, table, clock) else {
        return false;
    };
    run_lines(alloc, &mut session, &mut reader, &mut writer).is_ok()
        && writer.stream.as_slice() == answers.as_bytes()
}

#[test]
fn each_dialogue_is_answered_by_a_fresh_server(rt: HostRuntime) {
    let table = Table::new(rt.alloc());
    for (name, lines, answers) in DIALOGUES {
        assert!(rt; is_answered(rt.alloc(), &table, lines, answers), "{name}");
    }
}

#[test]
fn each_projected_dialogue_is_answered_by_a_fresh_server(rt: HostRuntime) {
    let table = title_table(&rt, rt.alloc());
    for (name, lines, answers) in PROJECTED_DIALOGUES {
        assert!(rt; is_answered(rt.alloc(), &table, lines, answers), "{name}");
    }
}
