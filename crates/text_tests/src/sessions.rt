//! Worked sessions, and what reading answers to them.

ghost use Rattle.std.specs.Prelude.{◌≤◌, length};

use session_text::{Line, Reason, SessionFault, read_session, session_of};
use std::alloc::{AllocError, Global};
use std::test::*;
use text_lines::lines_are_few;
use trace_meaning::{Answer, AnswerStore, Give, Value};
use trace_ops::{
    BoxId, FieldRow, Kind, List, Origin, PrebuiltRow, ShapeOf, SizeRow, Table, Text, Trace,
    TraceSet, What,
};

fn list<T: Copy>(alloc: Global, items: &[T]) -> Result<List<T>, AllocError> {
    Ok(List::of(Vec::from_slice(alloc, items)?))
}

fn size(alloc: Global, name: &[u8], fields: &[u32]) -> Result<SizeRow, AllocError>
    requires { length name.now ≤ 64 }
{
    Ok(SizeRow {
        name: Text::new(name),
        vtable: None,
        fields: list(alloc, fields)?,
    })
}

fn field(name: &[u8], size: u32, kind: Kind) -> FieldRow
    requires { length name.now ≤ 64 }
{
    FieldRow {
        name: Text::new(name),
        size,
        kind,
        immutable: false,
    }
}

fn object(alloc: Global, name: &[u8]) -> Result<PrebuiltRow, AllocError>
    requires { length name.now ≤ 64 }
{
    Ok(PrebuiltRow {
        name: Text::new(name),
        of: ShapeOf::Size(0),
        parts: list(alloc, &[])?,
    })
}

// Structures `node` and `box`, and prebuilt objects `root`, `zero` and `new`.
fn table(alloc: Global) -> Result<Table, AllocError> {
    let mut sizes = Vec::new(alloc);
    sizes.push(size(alloc, b"node", &[0, 1, 2])?)?;
    sizes.push(size(alloc, b"box", &[3])?)?;
    let fields = [
        field(b"x", 0, Kind::Int),
        field(b"y", 0, Kind::Int),
        field(b"a.next", 0, Kind::Ref),
        field(b"val", 1, Kind::Int),
    ];
    let mut prebuilts = Vec::new(alloc);
    prebuilts.push(object(alloc, b"root")?)?;
    prebuilts.push(object(alloc, b"zero")?)?;
    prebuilts.push(object(alloc, b"new")?)?;
    Ok(Table {
        shapes: list(alloc, &[ShapeOf::Size(0), ShapeOf::Size(1)])?,
        sizes: List::of(sizes),
        fields: list(alloc, &fields)?,
        arrays: list(alloc, &[])?,
        calls: List::of(Vec::new(alloc)),
        functions: list(alloc, &[])?,
        prebuilts: List::of(prebuilts),
    })
}

fn trace(alloc: Global, name: &[u8], origin: Origin, inputs: &[BoxId]) -> Result<Trace, AllocError>
    requires { length name.now ≤ 64 }
{
    Ok(Trace {
        name: Text::new(name),
        origin,
        label: false,
        inputs: list(alloc, inputs)?,
        ops: List::of(Vec::new(alloc)),
    })
}

const P0: BoxId = BoxId {
    kind: Kind::Ref,
    number: 0,
};

const I1: BoxId = BoxId {
    kind: Kind::Int,
    number: 1,
};

// Loops `L`, `M` and `E`, then a second loop `L`; bridges `B` and `M`.
fn set(alloc: Global) -> Result<TraceSet, AllocError> {
    let side = Origin::Bridge {
        parent: Text::new(b"L"),
        guard: 0,
    };
    let mut traces = Vec::new(alloc);
    traces.push(trace(alloc, b"L", Origin::Loop, &[P0, I1])?)?;
    traces.push(trace(alloc, b"B", side, &[P0])?)?;
    traces.push(trace(alloc, b"M", side, &[I1])?)?;
    traces.push(trace(alloc, b"M", Origin::Loop, &[I1])?)?;
    traces.push(trace(alloc, b"E", Origin::Loop, &[])?)?;
    traces.push(trace(alloc, b"L", Origin::Loop, &[])?)?;
    Ok(TraceSet {
        table: table(alloc)?,
        traces: List::of(traces),
    })
}

fn answer(alloc: Global, gives: Give, stores: &[AnswerStore]) -> Result<Answer, AllocError> {
    Ok(Answer {
        gives,
        stores: list(alloc, stores)?,
    })
}

// The first start, of a loop with these inputs.
fn started(
    alloc: Global,
    trace: u32,
    inputs: &[Value],
    answers: Vec<Answer>,
) -> Result<Line, AllocError> {
    Ok(Line::Start {
        activation: 0,
        trace,
        inputs: list(alloc, inputs)?,
        answers: List::of(answers),
    })
}

// Whether a text, whose first line has the number 100, is read as these lines.
fn reads_as(alloc: Global, text: &[u8], want: &[Line]) -> Result<bool, AllocError> {
    lines_are_few();
    if text.len() > 100000 {
        return Ok(false);
    }
    let set = set(alloc)?;
    match read_session(alloc, text, 100, &set) {
        Ok(lines) => Ok(lines.items() == want),
        Err(_) => Ok(false),
    }
}

// How a text is refused, its first line having the number 100.
fn refused(alloc: Global, text: &[u8]) -> Result<Option<SessionFault>, AllocError> {
    lines_are_few();
    if text.len() > 100000 {
        return Ok(None);
    }
    let set = set(alloc)?;
    match session_of(alloc, text, 100, &set) {
        Ok(_) => Ok(None),
        Err(fault) => Ok(Some(fault)),
    }
}

fn one(alloc: Global, line: Line) -> Result<Vec<Line>, AllocError> {
    let mut lines = Vec::new(alloc);
    lines.push(line)?;
    Ok(lines)
}

fn with_run(alloc: Global, line: Line, n: u32) -> Result<Vec<Line>, AllocError> {
    let mut lines = one(alloc, line)?;
    lines.push(Line::Run { activation: 0, n })?;
    Ok(lines)
}

fn one_answer(
    alloc: Global,
    gives: Give,
    stores: &[AnswerStore],
) -> Result<Vec<Answer>, AllocError> {
    let mut answers = Vec::new(alloc);
    answers.push(answer(alloc, gives, stores)?)?;
    Ok(answers)
}

#[test]
fn a_call_without_result_is_answered_by_none(rt: HostRuntime) -> Result<(), Fail> {
    let alloc = rt.alloc();
    let answers = one_answer(alloc, Give::Nothing, &[])?;
    let start = started(alloc, 3, &[Value::Int(7)], answers)?;
    let want = with_run(alloc, start, 10)?;
    let text = b"start A M (7) answers (none)\nrun A 10\n";
    assert!(rt; reads_as(alloc, text, want.as_slice())?);
    Ok(())
}

#[test]
fn an_answer_may_write_fields(rt: HostRuntime) -> Result<(), Fail> {
    let alloc = rt.alloc();
    let store = AnswerStore {
        arg: 0,
        field: 1,
        value: Give::Int(20),
    };
    let answers = one_answer(alloc, Give::Int(5), &[store])?;
    let start = started(alloc, 0, &[Value::Obj(0), Value::Int(7)], answers)?;
    let want = with_run(alloc, start, 20)?;
    let text = b"start A L (root, 7) answers (5 {#0.y=20})\nrun A 20";
    assert!(rt; reads_as(alloc, text, want.as_slice())?);
    Ok(())
}

#[test]
fn a_start_may_have_no_answers(rt: HostRuntime) -> Result<(), Fail> {
    let alloc = rt.alloc();
    let alone = one(alloc, started(alloc, 3, &[Value::Int(3)], Vec::new(alloc))?)?;
    assert!(rt; reads_as(alloc, b"start A M (3)", alone.as_slice())?);
    assert!(rt; reads_as(alloc, b"  start A M(3)answers()", alone.as_slice())?);
    let answers = one_answer(alloc, Give::Null, &[])?;
    let null = one(alloc, started(alloc, 3, &[Value::Int(3)], answers)?)?;
    assert!(rt; reads_as(alloc, b"start A M (003) answers (NULL)", null.as_slice())?);
    Ok(())
}

// The stores of the fourth answer of the next test, in their order.
const STORES: [AnswerStore; 4] = [
    AnswerStore {
        arg: 5,
        field: 2,
        value: Give::Prebuilt(1),
    },
    AnswerStore {
        arg: 0,
        field: 0,
        value: Give::Int(-1),
    },
    AnswerStore {
        arg: 0,
        field: 2,
        value: Give::Null,
    },
    AnswerStore {
        arg: 1,
        field: 2,
        value: Give::Arg(4),
    },
];

fn all_answers(alloc: Global) -> Result<Vec<Answer>, AllocError> {
    let mut answers = Vec::new(alloc);
    answers.push(answer(alloc, Give::New(1), &[])?)?;
    answers.push(answer(alloc, Give::Arg(5), &[])?)?;
    answers.push(answer(alloc, Give::Prebuilt(1), &[])?)?;
    answers.push(answer(alloc, Give::New(0), &STORES)?)?;
    answers.push(answer(alloc, Give::Prebuilt(2), &[])?)?;
    answers.push(answer(alloc, Give::Int(-9223372036854775808), &[])?)?;
    Ok(answers)
}

#[test]
fn every_form_of_answer_is_read(rt: HostRuntime) -> Result<(), Fail> {
    let alloc = rt.alloc();
    let want = one(alloc, started(alloc, 4, &[], all_answers(alloc)?)?)?;
    let text =
        b"start A E () answers (new box; #5; zero; new node {#5.a.next=zero, #0.x = -1,#0.a.next=NULL, #1.a.next=#4}; new; -9223372036854775808)";
    assert!(rt; reads_as(alloc, text, want.as_slice())?);
    Ok(())
}

fn two_activations(alloc: Global) -> Result<Vec<Line>, AllocError> {
    let mut lines = Vec::new(alloc);
    lines.push(Line::Attach { bridge: 2 })?;
    lines.push(started(alloc, 0, &[Value::Null, Value::Int(0)], Vec::new(alloc))?)?;
    lines.push(Line::Step {
        activation: 0,
        count: 10000000,
    })?;
    lines.push(Line::Start {
        activation: 1,
        trace: 4,
        inputs: list(alloc, &[])?,
        answers: List::of(Vec::new(alloc)),
    })?;
    lines.push(Line::Run {
        activation: 1,
        n: 1000000,
    })?;
    lines.push(Line::Step {
        activation: 0,
        count: 0,
    })?;
    lines.push(Line::Attach { bridge: 1 })?;
    Ok(lines)
}

const TWO: &[u8] =
    b"# a remark\nattach M\n\nstart A L (NULL, -0)\nstep A 10000000\nstart step E ()\nrun step 1000000\nstep A 00\nattach B\n";

#[test]
fn activations_are_numbered_by_their_starts(rt: HostRuntime) -> Result<(), Fail> {
    let alloc = rt.alloc();
    let want = two_activations(alloc)?;
    assert!(rt; reads_as(alloc, TWO, want.as_slice())?);
    Ok(())
}

fn are_named(alloc: Global, text: &[u8], first: &[u8], second: &[u8]) -> Result<bool, AllocError> {
    lines_are_few();
    if text.len() > 100000 {
        return Ok(false);
    }
    let set = set(alloc)?;
    match session_of(alloc, text, 1, &set) {
        Ok(session) => match session.names.items() {
            [a, b] => Ok(a.is(first) && b.is(second)),
            _ => Ok(false),
        },
        Err(_) => Ok(false),
    }
}

#[test]
fn the_names_of_activations_are_kept(rt: HostRuntime) -> Result<(), Fail> {
    assert!(rt; are_named(rt.alloc(), TWO, b"A", b"step")?);
    Ok(())
}

// Texts that are refused, with the line, counted from 100, and the reason.
const BAD: [(&[u8], u32, Reason); 62] = [
    (b"\x7f", 100, Reason::Shape),
    (b"# \t", 100, Reason::Shape),
    (b"\n%loop L", 101, Reason::Shape),
    (b" %session", 100, Reason::Shape),
    (b"go A", 100, Reason::Shape),
    (b"start", 100, Reason::Shape),
    (b"start A", 100, Reason::Shape),
    (b"start A L", 100, Reason::Shape),
    (b"start 9 E ()", 100, Reason::Shape),
    (b"start A 9 ()", 100, Reason::Shape),
    (b"start A L (root, 7", 100, Reason::Shape),
    (b"start A L (root, )", 100, Reason::Shape),
    (b"start A L (root 7)", 100, Reason::Shape),
    (b"start A L (root; 7)", 100, Reason::Shape),
    (b"start A L (, 7)", 100, Reason::Shape),
    (b"start A L [root, 7]", 100, Reason::Shape),
    (b"start A M (9223372036854775808)", 100, Reason::Shape),
    (b"start A M (#0)", 100, Reason::Shape),
    (b"start A M (7) 8", 100, Reason::Shape),
    (b"start A E () answers", 100, Reason::Shape),
    (b"start A E () answers (", 100, Reason::Shape),
    (b"start A E () answer (1)", 100, Reason::Shape),
    (b"start A E () answers (1, 2)", 100, Reason::Shape),
    (b"start A E () answers (1;)", 100, Reason::Shape),
    (b"start A E () answers (#6)", 100, Reason::Shape),
    (b"start A E () answers (#)", 100, Reason::Shape),
    (b"start A E () answers (# 1)", 100, Reason::Shape),
    (b"start A E () answers (new 5)", 100, Reason::Shape),
    (b"start A E () answers (1 {})", 100, Reason::Shape),
    (b"start A E () answers (1 {#0.x})", 100, Reason::Shape),
    (b"start A E () answers (1 {#0.x=})", 100, Reason::Shape),
    (b"start A E () answers (1 {#6.x=1})", 100, Reason::Shape),
    (b"start A E () answers (1 {#0x=1})", 100, Reason::Shape),
    (b"start A E () answers (1 {x=1})", 100, Reason::Shape),
    (b"start A E () answers (1 {#0.x=1,})", 100, Reason::Shape),
    (
        b"start A E () answers (1 {#0.x=1; #0.y=1})",
        100,
        Reason::Shape,
    ),
    (
        b"start A E () answers (1 {#0.x=new node})",
        100,
        Reason::Shape,
    ),
    (b"start A E () answers (1) x", 100, Reason::Shape),
    (b"step A", 100, Reason::Shape),
    (b"step A 10000001", 100, Reason::Shape),
    (b"step A -1", 100, Reason::Shape),
    (b"run A 1000001", 100, Reason::Shape),
    (b"run A 1 2", 100, Reason::Shape),
    (b"attach", 100, Reason::Shape),
    (b"attach B B", 100, Reason::Shape),
    (b"start A E ()\nstart A E ()", 101, Reason::Twice),
    (b"start A E ()\nstart A Z (q)", 101, Reason::Twice),
    (b"run Z 5", 100, Reason::Name),
    (b"step A 1\nstart A E ()", 100, Reason::Name),
    (b"start A Z ()", 100, Reason::Name),
    (b"start A B (NULL)", 100, Reason::Name),
    (b"start A M (7)\nattach L", 101, Reason::Name),
    (b"attach Z", 100, Reason::Name),
    (b"start A M (q, 7)", 100, Reason::Name),
    (b"start A E () answers (q)", 100, Reason::Name),
    (b"start A E () answers (new root)", 100, Reason::Name),
    (b"start A E () answers (1 {#0.node=1})", 100, Reason::Name),
    (b"start A E () answers (1 {#0.x=none})", 100, Reason::Name),
    (b"start A L (root)", 100, Reason::Inputs),
    (b"start A L (root, 7, 7)", 100, Reason::Inputs),
    (b"start A L (1, 7)", 100, Reason::Inputs),
    (b"start A L (root, zero)", 100, Reason::Inputs),
];

#[test]
fn bad_lines_are_refused_by_their_first_reason(rt: HostRuntime) -> Result<(), Fail> {
    for (text, line, reason) in BAD {
        let want = Some(SessionFault::SessionBad { line, reason });
        assert_eq!(rt; refused(rt.alloc(), text)?, want);
    }
    Ok(())
}

// A text with a part that stands in it so many times.
fn many(
    alloc: Global,
    head: &[u8],
    part: &[u8],
    times: u32,
    tail: &[u8],
) -> Result<Vec<u8>, AllocError> {
    let mut text = Vec::new(alloc);
    text.extend_from_slice(head)?;
    for _ in 0..times {
        text.extend_from_slice(part)?;
    }
    text.extend_from_slice(tail)?;
    Ok(text)
}

const SESSION: Option<SessionFault> = Some(SessionFault::Limit {
    what: What::Session,
    count: 4097,
});

const ACTIVATIONS: Option<SessionFault> = Some(SessionFault::Limit {
    what: What::Activations,
    count: 17,
});

const ANSWERS: Option<SessionFault> = Some(SessionFault::Limit {
    what: What::Answers,
    count: 4097,
});

const SIXTEEN: &[u8] =
    b"start a E ()\nstart b E ()\nstart c E ()\nstart d E ()\nstart e E ()\nstart f E ()\nstart g E ()\nstart h E ()\nstart i E ()\nstart j E ()\nstart k E ()\nstart l E ()\nstart m E ()\nstart n E ()\nstart o E ()\nstart p E ()\n";

// Texts with a part that stands in them many times, and how they are refused.
const LIMITS: [(&[u8], &[u8], u32, &[u8], Option<SessionFault>); 12] = [
    (b"start A E ()\n", b"step A 0\n", 4095, b"", None),
    (b"start A E ()\n", b"\nstep A 0\n# x\n", 4095, b"\n#", None),
    (b"start A E ()\n", b"step A 0\n", 4096, b"", SESSION),
    (b"start A E ()\n", b"step A 0\n", 4095, b"attach B", SESSION),
    (
        b"start A E ()\n",
        b"step A 0\n",
        4095,
        b"step Z 0",
        Some(SessionFault::SessionBad {
            line: 4196,
            reason: Reason::Name,
        }),
    ),
    (SIXTEEN, b"step p 0\n", 1, b"", None),
    (SIXTEEN, b"start q E ()\n", 1, b"", ACTIVATIONS),
    (
        SIXTEEN,
        b"start q E (1)\n",
        1,
        b"",
        Some(SessionFault::SessionBad {
            line: 116,
            reason: Reason::Inputs,
        }),
    ),
    (SIXTEEN, b"step p 0\n", 4080, b"start q E ()", SESSION),
    (b"start A E () answers (", b"1;", 4095, b"1)", None),
    (b"start A E () answers (", b"1;", 4096, b"1)", ANSWERS),
    (
        b"start A E () answers (",
        b"1;",
        4096,
        b"q)",
        Some(SessionFault::SessionBad {
            line: 100,
            reason: Reason::Name,
        }),
    ),
];

#[test]
fn limits_are_refused_at_the_line_that_passes_them(rt: HostRuntime) -> Result<(), Fail> {
    for (head, part, times, tail, want) in LIMITS {
        let text = many(rt.alloc(), head, part, times, tail)?;
        assert_eq!(rt; refused(rt.alloc(), text.as_slice())?, want);
    }
    Ok(())
}
