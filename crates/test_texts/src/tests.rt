use block_tree::{Evidence, Tree, Trees, dynamic};
use op_pack::Batches;
use statement::{
    TextCause, TextError, cause_text, read_inputs, read_statement, write_evidence, write_inputs,
    write_statement,
};
use std::alloc::{AllocError, Global};
use std::test::Fail;
use vm_field::{Bytes, Felt, Felts, Memory, Word};
use vm_state::Inputs;

// The text that is written of what was read, or the cause of a refusal.
fn answer(alloc: Global, text: &[u8]) -> Result<String, AllocError> {
    match read_inputs(alloc, text) {
        Ok(inputs) => {
            let Ok(written) = write_inputs(alloc, &inputs) else {
                return Err(AllocError);
            };
            shown(alloc, &written)
        }
        Err(error) => named(alloc, error),
    }
}

// The text of these bytes.
fn shown(alloc: Global, bytes: &Bytes) -> Result<String, AllocError> {
    let Ok(text) = std::str::from_utf8(bytes.as_slice()) else {
        return Err(AllocError);
    };
    String::from_str(alloc, text)
}

// The name of a refusal's cause.
fn named(alloc: Global, error: TextError) -> Result<String, AllocError> {
    match error {
        TextError::Bad(cause) => format!(in alloc; "{cause}"),
        TextError::Memory => Err(AllocError),
    }
}

// A text, an arrow, and its answer.
static TEXTS: &str = r#"{"advice":[1,4,9],"stack":[]} => {"advice":[1,4,9],"stack":[]}
  { "stack" : [ 3 , 2 ] , "advice" : [ ] }   => {"advice":[],"stack":[3,2]}
{"\u0073tack":[7],"advice":[0]} => {"advice":[0],"stack":[7]}
{"stack":[7],"advice":[],"stack":[8,9]} => {"advice":[],"stack":[8,9]}
{"stack":null,"advice":[],"stack":[]} => {"advice":[],"stack":[]}
{"stack":[18446744069414584320],"advice":[]} => {"advice":[],"stack":[18446744069414584320]}
{"stack":[1,2,3,4,5,6,7,8,9,10,11,12,13,14,15,16,17,18],"advice":[]} => {"advice":[],"stack":[1,2,3,4,5,6,7,8,9,10,11,12,13,14,15,16,17,18]}
 => NotJson
{"stack":[1,],"advice":[]} => NotJson
{"stack":[],"advice":[],} => NotJson
{"stack":[],"advice":[]} 0 => NotJson
{"stack":[],"advice":[] => NotJson
{"stack":[],"advice":[01]} => NotJson
{"stack":[],"advice":[+1]} => NotJson
{'stack':[],'advice':[]} => NotJson
[[],[]] => Shape
null => Shape
{"stack":[]} => Shape
{"advice":[],"stacks":[]} => Shape
{"stack":[],"advice":[],"more":[]} => Shape
{"Stack":[],"advice":[]} => Shape
{"stack":[],"advice":7} => Shape
{"stack":{},"advice":[]} => Shape
{"stack":["1"],"advice":[]} => Shape
{"stack":[],"advice":[-1,null]} => Shape
{"stack":[[1]],"advice":[]} => Shape
{"stack":[1.0],"advice":[]} => Element
{"stack":[-1],"advice":[]} => Element
{"stack":[-0],"advice":[]} => Element
{"stack":[],"advice":[1e2]} => Element
{"stack":[],"advice":[0.5]} => Element
{"stack":[18446744069414584321],"advice":[]} => Element
{"stack":[],"advice":[18446744069414584321]} => Element
{"stack":[],"advice":[18446744073709551616]} => Element
"#;

#[test]
fn answers_texts(rt: HostRuntime) -> Result<(), Fail> {
    for line in TEXTS.lines() {
        let (text, want) = line.split_once(" => ").ok_or("no arrow")?;
        let found = answer(rt.alloc(), text.as_bytes())?;
        assert_eq!(rt; found.as_str(), want, "at {text}");
    }
    let rows: [(&[u8], &str); 5] = [
        (b"", "NotJson"),
        (b"\xef\xbb\xbf{\"stack\":[],\"advice\":[]}", "NotJson"),
        (b"{\"stack\":[],\"advice\":[],\"\xff\":[]}", "NotJson"),
        (
            b"{\"stack\":[],\"advice\":[],\"stack\":\"\\ud800\"}",
            "NotJson",
        ),
        (
            b"\t{\"stack\":\r\n[1],\n\"advice\":[2]}\n",
            "{\"advice\":[2],\"stack\":[1]}",
        ),
    ];
    for (text, want) in rows {
        let found = answer(rt.alloc(), text)?;
        assert_eq!(rt; found.as_str(), want);
    }
    Ok(())
}

// Text, that many zeros with commas between, and the rest.
fn with_zeros(alloc: Global, front: &str, count: usize, rest: &str) -> Result<String, AllocError> {
    let mut text = String::from_str(alloc, front)?;
    text.push_str("0")?;
    for _ in 1..count {
        text.push_str(",0")?;
    }
    text.push_str(rest)?;
    Ok(text)
}

// A text whose advice is that many zeros and whose stack is a 7.
fn zeros(alloc: Global, count: usize) -> Result<String, AllocError> {
    with_zeros(alloc, "{\"stack\":[7],\"advice\":[", count, "]}")
}

// A text with an array of zeros in it, and the cause of its refusal; none where it is written as it was read.
struct Limit {
    front: &'static str,
    count: usize,
    rest: &'static str,
    cause: Option<&'static str>,
}

// As many elements on the stack as there may be, and one more, which decides behind an element that is none.
static STACKS: [Limit; 3] = [
    Limit {
        front: r#"{"advice":[],"stack":["#,
        count: 1024,
        rest: r#"]}"#,
        cause: None,
    },
    Limit {
        front: r#"{"advice":[],"stack":["#,
        count: 1025,
        rest: r#"]}"#,
        cause: Some("Count"),
    },
    Limit {
        front: r#"{"advice":[-1],"stack":["#,
        count: 1025,
        rest: r#"]}"#,
        cause: Some("Element"),
    },
];

// The same of a statement's inputs, behind a digest that is none.
static STATED: [Limit; 3] = [
    Limit {
        front: r#"{"digest":"0000000000000000000000000000000000000000000000000000000000000000","inputs":["#,
        count: 1024,
        rest: r#"],"kernel":[],"outputs":[0,0,0,0,0,0,0,0,0,0,0,0,0,0,0,0]}"#,
        cause: None,
    },
    Limit {
        front: r#"{"digest":"0000000000000000000000000000000000000000000000000000000000000000","inputs":["#,
        count: 1025,
        rest: r#"],"kernel":[],"outputs":[0,0,0,0,0,0,0,0,0,0,0,0,0,0,0,0]}"#,
        cause: Some("Count"),
    },
    Limit {
        front: r#"{"digest":"x","inputs":["#,
        count: 1025,
        rest: r#"],"kernel":[],"outputs":[0,0,0,0,0,0,0,0,0,0,0,0,0,0,0,0]}"#,
        cause: Some("Digest"),
    },
];

fn limit_text(alloc: Global, limit: &Limit) -> Result<String, AllocError> {
    with_zeros(alloc, limit.front, limit.count, limit.rest)
}

fn stacks_are_limited(alloc: Global) -> Result<bool, AllocError> {
    for limit in &STACKS {
        let text = limit_text(alloc, limit)?;
        if answer(alloc, text.as_bytes())?.as_str() != limit.cause.unwrap_or(text.as_str()) {
            return Ok(false);
        }
    }
    Ok(true)
}

fn stated_inputs_are_limited(alloc: Global) -> Result<bool, AllocError> {
    for limit in &STATED {
        let text = limit_text(alloc, limit)?;
        if statement_answer(alloc, text.as_str())?.as_str()
            != limit.cause.unwrap_or(text.as_str())
        {
            return Ok(false);
        }
    }
    Ok(true)
}

#[test]
fn limits_inputs(rt: HostRuntime) -> Result<(), Fail> {
    assert!(rt; stacks_are_limited(rt.alloc())?);
    assert!(rt; stated_inputs_are_limited(rt.alloc())?);
    Ok(())
}

#[test]
fn takes_the_longest_advice(rt: HostRuntime) -> Result<(), Fail> {
    let alloc = rt.alloc();
    let full = read_inputs(alloc, zeros(alloc, Inputs::MOST_ADVICE)?.as_bytes())?;
    assert_eq!(rt; full.advice.len(), 1048576);
    assert_eq!(rt; full.stack.as_slice(), [Felt::try_from_u64(7)?].as_slice());
    assert_eq!(rt; write_inputs(alloc, &full)?.len(), 2097176);
    Ok(())
}

#[test]
fn refuses_longer_advice(rt: HostRuntime) -> Result<(), Fail> {
    let alloc = rt.alloc();
    let refused = read_inputs(alloc, zeros(alloc, 1048577)?.as_bytes()).err();
    assert_eq!(rt; refused, Some(TextError::Bad(TextCause::Count)));
    Ok(())
}

#[test]
fn writes_and_names_causes(rt: HostRuntime) -> Result<(), Fail> {
    let alloc = rt.alloc();
    let stack = Felts::copied(alloc, &[Felt::ONE, Felt::ZERO])?;
    let advice = Felts::copied(alloc, &[Felt::ZERO])?;
    let written = write_inputs(alloc, &Inputs::new(stack, advice))?;
    assert_eq!(rt;
        written.as_slice(),
        b"{\"advice\":[0],\"stack\":[1,0]}".as_slice()
    );
    assert_eq!(rt; cause_text(TextCause::Digest), "Digest");
    assert_eq!(rt; cause_text(TextCause::Repeated), "Repeated");
    Ok(())
}

// The text that is written of the statement that was read, or the cause of a refusal.
fn statement_answer(alloc: Global, text: &str) -> Result<String, AllocError> {
    match read_statement(alloc, text.as_bytes()) {
        Ok(statement) => {
            let Ok(written) = write_statement(alloc, &statement) else {
                return Err(AllocError);
            };
            shown(alloc, &written)
        }
        Err(error) => named(alloc, error),
    }
}

// A statement's text, an arrow, and its answer.
static STATEMENTS: &str =
    r#"{"digest":"0000000000000000000000000000000000000000000000000000000000000000","inputs":[],"kernel":[],"outputs":[0,0,0,0,0,0,0,0,0,0,0,0,0,0,0,0]} => {"digest":"0000000000000000000000000000000000000000000000000000000000000000","inputs":[],"kernel":[],"outputs":[0,0,0,0,0,0,0,0,0,0,0,0,0,0,0,0]}
{"outputs":[0,0,0,0,0,0,0,0,0,0,0,0,0,0,0,0],"kernel":["0000000000000000000000000000000000000000000000000000000000000000","000000000000000000000000000000000000000000000000000000000000000A"],"digest":"000000000000000000000000000000000000000000000000000000000000000A","inputs":[7,8]} => {"digest":"000000000000000000000000000000000000000000000000000000000000000a","inputs":[7,8],"kernel":["0000000000000000000000000000000000000000000000000000000000000000","000000000000000000000000000000000000000000000000000000000000000a"],"outputs":[0,0,0,0,0,0,0,0,0,0,0,0,0,0,0,0]}
{} => Shape
{"digest":7,"inputs":[-1} => NotJson
{"digest":7,"inputs":[-1],"kernel":[],"outputs":[0,0,0,0,0,0,0,0,0,0,0,0,0,0,0,0]} => Shape
{"digest":"0000000000000000000000000000000000000000000000000000000000000000","inputs":[],"kernel":[7],"outputs":[-1]} => Shape
{"digest":"x","inputs":[],"kernel":[],"outputs":[-1]} => Element
{"digest":"x","inputs":[],"kernel":[],"outputs":[0]} => Digest
{"digest":"0000000000000000000000000000000000000000000000000000000000000000","inputs":[],"kernel":["x"],"outputs":[0]} => Digest
{"digest":"0000000000000000000000000000000000000000000000000000000000000000","inputs":[],"kernel":["0000000000000000000000000000000000000000000000000000000000000000","0000000000000000000000000000000000000000000000000000000000000000"],"outputs":[0]} => Count
{"digest":"0000000000000000000000000000000000000000000000000000000000000000","inputs":[],"kernel":[],"outputs":[0]} => Count
{"digest":"0000000000000000000000000000000000000000000000000000000000000000","inputs":[],"kernel":["000000000000000000000000000000000000000000000000000000000000000a","000000000000000000000000000000000000000000000000000000000000000A"],"outputs":[0,0,0,0,0,0,0,0,0,0,0,0,0,0,0,0]} => Repeated
"#;

#[test]
fn answers_statements(rt: HostRuntime) -> Result<(), Fail> {
    for line in STATEMENTS.lines() {
        let (text, want) = line.split_once(" => ").ok_or("no arrow")?;
        let found = statement_answer(rt.alloc(), text)?;
        assert_eq!(rt; found.as_str(), want, "at {text}");
    }
    Ok(())
}

// The text that is written of a run of three cycles.
fn run_answer(alloc: Global, tree: Tree, tape: &[Felt]) -> Result<String, Memory> {
    let tape = Felts::copied(alloc, tape)?;
    let run = Evidence::Run {
        cycles: 3,
        tree,
        tape,
    };
    Ok(shown(alloc, &write_evidence(alloc, &run)?)?)
}

#[test]
fn writes_evidence(rt: HostRuntime) -> Result<(), Fail> {
    let alloc = rt.alloc();
    let span = Tree::Span(Batches::of(alloc, [Felt::ZERO; 8])?);
    let found = run_answer(alloc, span, &[])?;
    assert_eq!(rt;
        found.as_str(),
        "run\ncycles 3\ntape\nspan 1\nbatch 0 0 0 0 0 0 0 0\n"
    );
    let body = Box::new(alloc, Tree::Opaque(Word::ZERO))?;
    let found = run_answer(alloc, Tree::Loop(body), &[Felt::ONE, Felt::ZERO])?;
    assert_eq!(rt;
        found.as_str(),
        "run\ncycles 3\ntape 1 0\nloop\nopaque 0000000000000000000000000000000000000000000000000000000000000000\n"
    );
    let mut targets = Trees::new(alloc);
    targets.push(Tree::Opaque(Word::ZERO))?;
    targets.push(dynamic(Trees::new(alloc)))?;
    let found = run_answer(alloc, dynamic(targets), &[])?;
    assert_eq!(rt;
        found.as_str(),
        "run\ncycles 3\ntape\ndyn 2\nopaque 0000000000000000000000000000000000000000000000000000000000000000\ndyn 0\n"
    );
    let pair = write_evidence(
        alloc,
        &Evidence::Pair {
            first: 9,
            second: 17,
        },
    )?;
    assert_eq!(rt; pair.as_slice(), b"pair 9 17\n".as_slice());
    Ok(())
}
