//! What an Apply makes of the body, and what its record then tells: the changes are made of the configuration and of the
//! places that go.
ghost use Rattle.std.specs.Prelude.{IfOk};
ghost use Rattle.ssa_model.specs.definitions.Valid.{IsValidState};
ghost use Rattle.ssa_merge.specs.States.{state_view};
ghost use Rattle.ssa_turn_body.specs.Writable.{AreWritable};

use crate::bodies::{body_under, state};
use ssa_merge::change::{Change, NewBody, change_apply};
use ssa_merge::managers::Managers;
use ssa_merge::state::State;
use ssa_path::part::Part;
use ssa_samples::sample::{json, moment, schema};
use ssa_schema::schema::Schema;
use ssa_turn_body::over_steps::steps_over;
use ssa_turn_body::steps::BodySteps;
use std::alloc::Global;
use std::test::Fail;

// An Apply of a configuration by m1: the live body, what m1 owns of it and what m2 owns, and what the Apply makes of the
// body: the body after it, where that was made whole, else its record. Where m2 owns nothing, it is no manager.
struct Case {
    live: &'static str,
    own: &'static str,
    other: &'static str,
    config: &'static str,
    force: bool,
    made: &'static str,
}

// The entry of a manager who owns these fields.
fn entry(alloc: Global, who: &str, fields: &str) -> Result<String, Fail> {
    let text = [
        r#"{"apiVersion":"v1","fieldsType":"FieldsV1","fieldsV1":"#,
        fields,
        r#","manager":""#,
        who,
        r#"","operation":"Apply","time":"2024-05-01T10:00:00Z"}"#,
    ]
    .concat(alloc)?;
    Ok(text)
}

// The managers' entries.
fn entries(alloc: Global, case: &Case) -> Result<String, Fail> {
    let own = entry(alloc, "m1", case.own)?;
    if case.other.is_empty() {
        return Ok(["[", own.as_str(), "]"].concat(alloc)?);
    }
    let other = entry(alloc, "m2", case.other)?;
    Ok(["[", own.as_str(), ",", other.as_str(), "]"].concat(alloc)?)
}

// The live body with its managers.
fn live_state(alloc: Global, schema: &Schema, case: &Case) -> Result<State, Fail>
    ensures { IfOk result (λ s. IsValidState schema.now.kind (state_view s)) }
{
    let entries = json(alloc, entries(alloc, case)?.as_str())?;
    let State { body, managers: _ } = state(alloc, schema, case.live)?;
    let managers = Managers::from_entries(alloc, &entries, &body, "v1")?;
    Ok(State { body, managers })
}

// The members of a record that tell of the body.
fn record_text(alloc: Global, steps: &BodySteps) -> Result<String, Fail>
    requires { AreWritable steps.now.steps.items }
{
    let cut = steps.cut_to_json(alloc)?.to_string(alloc)?;
    let leaves = steps.leaves_to_json(alloc)?.to_string(alloc)?;
    let order = steps.order_to_json(alloc)?.to_string(alloc)?;
    let put = steps.put_to_json(alloc)?.to_string(alloc)?;
    Ok(format!(in alloc; "cut {cut} leaves {leaves} order {order} put {put}")?)
}

// What the Apply makes of the body.
fn made_under(alloc: Global, schema: &Schema, case: &Case) -> Result<String, Fail> {
    let state = live_state(alloc, schema, case)?;
    let config = body_under(alloc, schema, json(alloc, case.config)?)?;
    let change = change_apply(
        alloc,
        &state,
        config,
        "m1",
        Part::Main,
        case.force,
        moment()?,
    )?;
    let Change {
        body,
        table: _,
        comparison,
    } = change;
    match body {
        NewBody::Same => Ok(String::from_str(alloc, "as it was")?),
        NewBody::Whole(body) => Ok(body.to_json(alloc)?.to_string(alloc)?),
        NewBody::Over(config) => {
            let steps = steps_over(alloc, &state.body, config, &comparison.removed)?;
            record_text(alloc, &steps)
        }
    }
}

// Fails where the Apply makes something else of the body than what is wanted.
fn is_made(alloc: Global, case: &Case) -> Result<(), Fail> {
    let made = made_under(alloc, &schema(alloc)?, case)?;
    if made.as_str() != case.made {
        let Case { live, config, .. } = case;
        return Err(Fail::new(format_args!("{config} over {live}: {made}")));
    }
    Ok(())
}

// Another leaf; by force, a leaf and an atomic value of which m2 owns the one alone and both own the other; an entry and a
// field that come beside others, and a whole record; items of a set, and of a map list with a leaf of one that was there,
// which come behind the live ones in the configuration's order; and a whole list.
const COMING: [Case; 6] = [
    Case {
        live: r#"{"spec":{"image":"a","replicas":3}}"#,
        own: r#"{"f:spec":{"f:replicas":{}}}"#,
        other: "",
        config: r#"{"spec":{"replicas":5}}"#,
        force: false,
        made: r#"cut [] leaves [[["f:spec","f:replicas"],5]] order [] put []"#,
    },
    Case {
        live: r#"{"spec":{"args":["a"],"image":"a","replicas":3}}"#,
        own: r#"{"f:spec":{"f:args":{},"f:replicas":{}}}"#,
        other: r#"{"f:spec":{"f:args":{},"f:image":{}}}"#,
        config: r#"{"spec":{"args":["b","a"],"image":"b","replicas":3}}"#,
        force: true,
        made: r#"cut [] leaves [[["f:spec","f:args"],["b","a"]],[["f:spec","f:image"],"b"]] order [] put []"#,
    },
    Case {
        live: r#"{"spec":{"env":{"A":"1","C":"3"},"replicas":3}}"#,
        own: r#"{"f:spec":{"f:replicas":{}}}"#,
        other: "",
        config: r#"{"metadata":{"labels":{"x":"y"}},"spec":{"env":{"B":"2"},"image":"a","replicas":3}}"#,
        force: false,
        made: r#"cut [] leaves [] order [] put [[["f:metadata"],{"labels":{"x":"y"}}],[["f:spec","f:env","f:B"],"2"],[["f:spec","f:image"],"a"]]"#,
    },
    Case {
        live: r#"{"spec":{"hosts":["b","a"]}}"#,
        own: r#"{"f:spec":{"f:hosts":{"v:\"a\"":{}}}}"#,
        other: "",
        config: r#"{"spec":{"hosts":["d","a","c"]}}"#,
        force: false,
        made: r#"cut [] leaves [] order [] put [[["f:spec","f:hosts","v:\"c\""],"c",3],[["f:spec","f:hosts","v:\"d\""],"d",2]]"#,
    },
    Case {
        live: r#"{"spec":{"ports":[{"name":"b","port":2},{"name":"a","port":1}]}}"#,
        own: r#"{"f:spec":{"f:ports":{"k:{\"name\":\"a\"}":{".":{},"f:name":{},"f:port":{}}}}}"#,
        other: "",
        config: r#"{"spec":{"ports":[{"name":"d","port":4},{"name":"a","port":9},{"name":"c"}]}}"#,
        force: false,
        made: r#"cut [] leaves [[["f:spec","f:ports","k:{\"name\":\"a\"}","f:port"],9]] order [] put [[["f:spec","f:ports","k:{\"name\":\"c\"}"],{"name":"c"},3],[["f:spec","f:ports","k:{\"name\":\"d\"}"],{"name":"d","port":4},2]]"#,
    },
    Case {
        live: r#"{"spec":{"image":"a"}}"#,
        own: r#"{"f:spec":{"f:image":{}}}"#,
        other: "",
        config: r#"{"spec":{"hosts":["b","a"],"image":"a"}}"#,
        force: false,
        made: r#"cut [] leaves [] order [] put [[["f:spec","f:hosts"],["b","a"]]]"#,
    },
];

#[test]
fn what_comes_is_told(rt: HostRuntime) -> Result<(), Fail> {
    for case in &COMING {
        is_made(rt.alloc(), case)?;
    }
    Ok(())
}

// An entry of a Dict, and an item of a set and of a map list; all that is below a record, which goes too, with a list below it;
// the last item of a list, which goes alone; what m2 owns too stays, in a leaf and an item of a set; and an item stays of which
// m2 owns a field, and loses the field that m1 alone owns where m2 owns the rest.
const GOING: [Case; 5] = [
    Case {
        live: r#"{"spec":{"env":{"A":"1","B":"2"},"hosts":["a","b"],"ports":[{"name":"a","port":1},{"name":"b"}]}}"#,
        own: r#"{"f:spec":{"f:env":{"f:A":{},"f:B":{}},"f:hosts":{"v:\"a\"":{},"v:\"b\"":{}},"f:ports":{"k:{\"name\":\"a\"}":{".":{},"f:name":{},"f:port":{}},"k:{\"name\":\"b\"}":{".":{},"f:name":{}}}}}"#,
        other: "",
        config: r#"{"spec":{"env":{"B":"2"},"hosts":["b"],"ports":[{"name":"b"}]}}"#,
        force: false,
        made: r#"cut [["f:spec","f:env","f:A"],["f:spec","f:hosts","v:\"a\""],["f:spec","f:ports","k:{\"name\":\"a\"}"]] leaves [] order [] put []"#,
    },
    Case {
        live: r#"{"spec":{"hosts":["a"],"image":"a"}}"#,
        own: r#"{"f:spec":{"f:hosts":{"v:\"a\"":{}},"f:image":{}}}"#,
        other: "",
        config: "{}",
        force: false,
        made: r#"cut [["f:spec"]] leaves [] order [] put []"#,
    },
    Case {
        live: r#"{"spec":{"hosts":["a"],"image":"a"}}"#,
        own: r#"{"f:spec":{"f:hosts":{"v:\"a\"":{}},"f:image":{}}}"#,
        other: "",
        config: r#"{"spec":{"image":"a"}}"#,
        force: false,
        made: r#"cut [["f:spec","f:hosts"]] leaves [] order [] put []"#,
    },
    Case {
        live: r#"{"spec":{"hosts":["a","b"],"image":"a","replicas":3}}"#,
        own: r#"{"f:spec":{"f:hosts":{"v:\"a\"":{},"v:\"b\"":{}},"f:image":{}}}"#,
        other: r#"{"f:spec":{"f:hosts":{"v:\"a\"":{}},"f:image":{}}}"#,
        config: r#"{"spec":{"replicas":5}}"#,
        force: false,
        made: r#"cut [["f:spec","f:hosts","v:\"b\""]] leaves [[["f:spec","f:replicas"],5]] order [] put []"#,
    },
    Case {
        live: r#"{"spec":{"ports":[{"name":"a","port":1},{"name":"b","port":2},{"name":"c","port":3}]}}"#,
        own: r#"{"f:spec":{"f:ports":{"k:{\"name\":\"a\"}":{".":{},"f:name":{},"f:port":{}},"k:{\"name\":\"b\"}":{".":{},"f:name":{},"f:port":{}},"k:{\"name\":\"c\"}":{"f:port":{}}}}}"#,
        other: r#"{"f:spec":{"f:ports":{"k:{\"name\":\"a\"}":{"f:port":{}},"k:{\"name\":\"c\"}":{".":{},"f:name":{}}}}}"#,
        config: "{}",
        force: false,
        made: r#"cut [["f:spec","f:ports","k:{\"name\":\"b\"}"],["f:spec","f:ports","k:{\"name\":\"c\"}","f:port"]] leaves [] order [] put []"#,
    },
];

#[test]
fn what_goes_is_told(rt: HostRuntime) -> Result<(), Fail> {
    for case in &GOING {
        is_made(rt.alloc(), case)?;
    }
    Ok(())
}

// An item comes where another stood, behind one that stays: of a set and of a map list; the only item of a set; and an entry
// and a field beside those that go.
const EXCHANGED: [Case; 4] = [
    Case {
        live: r#"{"spec":{"hosts":["b","a"]}}"#,
        own: r#"{"f:spec":{"f:hosts":{"v:\"a\"":{}}}}"#,
        other: r#"{"f:spec":{"f:hosts":{"v:\"b\"":{}}}}"#,
        config: r#"{"spec":{"hosts":["c"]}}"#,
        force: false,
        made: r#"cut [["f:spec","f:hosts","v:\"a\""]] leaves [] order [] put [[["f:spec","f:hosts","v:\"c\""],"c",1]]"#,
    },
    Case {
        live: r#"{"spec":{"ports":[{"name":"a","port":1},{"name":"b","port":2}]}}"#,
        own: r#"{"f:spec":{"f:ports":{"k:{\"name\":\"a\"}":{".":{},"f:name":{},"f:port":{}}}}}"#,
        other: r#"{"f:spec":{"f:ports":{"k:{\"name\":\"b\"}":{".":{},"f:name":{},"f:port":{}}}}}"#,
        config: r#"{"spec":{"ports":[{"name":"c","port":3}]}}"#,
        force: false,
        made: r#"cut [["f:spec","f:ports","k:{\"name\":\"a\"}"]] leaves [] order [] put [[["f:spec","f:ports","k:{\"name\":\"c\"}"],{"name":"c","port":3},1]]"#,
    },
    Case {
        live: r#"{"spec":{"hosts":["a"]}}"#,
        own: r#"{"f:spec":{"f:hosts":{"v:\"a\"":{}}}}"#,
        other: "",
        config: r#"{"spec":{"hosts":["c"]}}"#,
        force: false,
        made: r#"cut [["f:spec","f:hosts","v:\"a\""]] leaves [] order [] put [[["f:spec","f:hosts","v:\"c\""],"c",0]]"#,
    },
    Case {
        live: r#"{"spec":{"env":{"A":"1"},"image":"a"}}"#,
        own: r#"{"f:spec":{"f:env":{"f:A":{}},"f:image":{}}}"#,
        other: "",
        config: r#"{"spec":{"env":{"B":"1"},"replicas":3}}"#,
        force: false,
        made: r#"cut [["f:spec","f:env","f:A"],["f:spec","f:image"]] leaves [] order [] put [[["f:spec","f:env","f:B"],"1"],[["f:spec","f:replicas"],3]]"#,
    },
];

#[test]
fn what_comes_where_something_goes_is_told(rt: HostRuntime) -> Result<(), Fail> {
    for case in &EXCHANGED {
        is_made(rt.alloc(), case)?;
    }
    Ok(())
}

// All that is there; by force, what m2 owns too; what m1 did not own; and less than m1 owned, where m2 owns the rest too.
const REPEATED: [Case; 4] = [
    Case {
        live: r#"{"spec":{"env":{"A":"1"},"hosts":["a","b"],"image":"a"}}"#,
        own: r#"{"f:spec":{"f:env":{"f:A":{}},"f:hosts":{"v:\"a\"":{},"v:\"b\"":{}},"f:image":{}}}"#,
        other: "",
        config: r#"{"spec":{"env":{"A":"1"},"hosts":["a","b"],"image":"a"}}"#,
        force: false,
        made: "as it was",
    },
    Case {
        live: r#"{"spec":{"hosts":["a","b"],"image":"a"}}"#,
        own: r#"{"f:spec":{"f:hosts":{"v:\"a\"":{},"v:\"b\"":{}}}}"#,
        other: r#"{"f:spec":{"f:hosts":{"v:\"a\"":{}}}}"#,
        config: r#"{"spec":{"hosts":["a","b"]}}"#,
        force: true,
        made: "as it was",
    },
    Case {
        live: r#"{"spec":{"image":"a","replicas":3}}"#,
        own: r#"{"f:spec":{"f:replicas":{}}}"#,
        other: "",
        config: r#"{"spec":{"image":"a","replicas":3}}"#,
        force: false,
        made: "as it was",
    },
    Case {
        live: r#"{"spec":{"image":"a","replicas":3}}"#,
        own: r#"{"f:spec":{"f:image":{},"f:replicas":{}}}"#,
        other: r#"{"f:spec":{"f:replicas":{}}}"#,
        config: r#"{"spec":{"image":"a"}}"#,
        force: false,
        made: "as it was",
    },
];

#[test]
fn a_repeated_configuration_leaves_the_body(rt: HostRuntime) -> Result<(), Fail> {
    for case in &REPEATED {
        is_made(rt.alloc(), case)?;
    }
    Ok(())
}

// Items of both in another order: of a set; of a map list, each over its own live item, with a leaf beside it; with an item that
// comes; with one that comes and two that are not configured; and with one that goes.
const REORDERED: [Case; 5] = [
    Case {
        live: r#"{"spec":{"hosts":["a","b"],"image":"a"}}"#,
        own: r#"{"f:spec":{"f:hosts":{"v:\"a\"":{},"v:\"b\"":{}}}}"#,
        other: r#"{"f:spec":{"f:hosts":{"v:\"a\"":{}}}}"#,
        config: r#"{"spec":{"hosts":["b","a"]}}"#,
        force: false,
        made: r#"{"spec":{"hosts":["b","a"],"image":"a"}}"#,
    },
    Case {
        live: r#"{"spec":{"image":"a","ports":[{"name":"a","port":1},{"name":"b","port":2}]}}"#,
        own: r#"{"f:spec":{"f:image":{}}}"#,
        other: "",
        config: r#"{"spec":{"image":"b","ports":[{"name":"b"},{"name":"a"}]}}"#,
        force: false,
        made: r#"{"spec":{"image":"b","ports":[{"name":"b","port":2},{"name":"a","port":1}]}}"#,
    },
    Case {
        live: r#"{"spec":{"hosts":["a","b"]}}"#,
        own: r#"{"f:spec":{"f:hosts":{"v:\"a\"":{}}}}"#,
        other: "",
        config: r#"{"spec":{"hosts":["b","c","a"]}}"#,
        force: false,
        made: r#"{"spec":{"hosts":["b","a","c"]}}"#,
    },
    Case {
        live: r#"{"spec":{"hosts":["a","b","c","d"]}}"#,
        own: r#"{"f:spec":{"f:hosts":{"v:\"a\"":{}}}}"#,
        other: r#"{"f:spec":{"f:hosts":{"v:\"b\"":{}}}}"#,
        config: r#"{"spec":{"hosts":["d","x","a"]}}"#,
        force: false,
        made: r#"{"spec":{"hosts":["d","b","c","a","x"]}}"#,
    },
    Case {
        live: r#"{"spec":{"hosts":["a","b","c"]}}"#,
        own: r#"{"f:spec":{"f:hosts":{"v:\"a\"":{},"v:\"b\"":{},"v:\"c\"":{}}}}"#,
        other: "",
        config: r#"{"spec":{"hosts":["c","a"]}}"#,
        force: false,
        made: r#"{"spec":{"hosts":["c","a"]}}"#,
    },
];

#[test]
fn a_reordered_configuration_leads(rt: HostRuntime) -> Result<(), Fail> {
    for case in &REORDERED {
        is_made(rt.alloc(), case)?;
    }
    Ok(())
}
