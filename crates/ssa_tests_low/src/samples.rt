//! Sample schemas.

/// A field of each kind below `spec`: atomic values `args` and `limits`, a Dict `env`, a set `hosts`,
/// a text, a whole number and a truth value, and map lists by one key field and by two.
pub const SPEC: &str = r#"{"type":"object","properties":{"spec":{"type":"object","properties":{
    "args":{"type":"array","items":{"type":"string"}},
    "env":{"type":"object","additionalProperties":{"type":"string"}},
    "hosts":{"type":"array","items":{"type":"string"},"x-kubernetes-list-type":"set"},
    "image":{"type":"string"},
    "limits":{"type":"object","additionalProperties":{"type":"integer"},"x-kubernetes-map-type":"atomic"},
    "paused":{"type":"boolean"},
    "ports":{"type":"array","x-kubernetes-list-type":"map","x-kubernetes-list-map-keys":["name"],
        "items":{"type":"object","properties":{"name":{"type":"string"},"port":{"type":"integer"}}}},
    "replicas":{"type":"integer"},
    "routes":{"type":"array","x-kubernetes-list-type":"map","x-kubernetes-list-map-keys":["port","name"],
        "items":{"type":"object","properties":{"name":{"type":"string"},"port":{"type":"integer"}}}}
}}}}"#;

/// A scalar `a`, a Dict `d` of whole numbers, a Dict `e` of records, a map list `l` by `n`, a
/// record `r`, a set `s` of whole numbers, and an atomic list `v`.
pub const PLACES: &str = r#"{"type":"object","properties":{
    "a":{"type":"integer"},
    "d":{"type":"object","additionalProperties":{"type":"integer"}},
    "e":{"type":"object","additionalProperties":{"type":"object","properties":{"x":{"type":"integer"}}}},
    "l":{"type":"array","x-kubernetes-list-type":"map","x-kubernetes-list-map-keys":["n"],
        "items":{"type":"object","properties":{"n":{"type":"integer"},"t":{"type":"integer"}}}},
    "r":{"type":"object","properties":{"x":{"type":"integer"}}},
    "s":{"type":"array","items":{"type":"integer"},"x-kubernetes-list-type":"set"},
    "v":{"type":"array","items":{"type":"integer"}}
}}"#;
