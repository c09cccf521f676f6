//! The constants of pieces are words.
ghost use Rattle.std.specs.List.{All, AllByRecursion};
ghost use Rattle.trace_ops.specs.declared.piece.Piece.{Piece};
ghost use Rattle.trace_ops.specs.declared.piece.OptOp.TheVariants as opt;
ghost use Rattle.trace_ops.specs.Constants.{ArgHasWord};
ghost use Rattle.opt_meaning.specs.Pieces.{all_pieces};
ghost use Rattle.opt_meaning.specs.Worded.{OpHasWords};

use trace_ops::{Arg, OptOp, OptTrace, Piece};

// By its type.
fn argument_is_word(arg: Arg)
    ensures { ArgHasWord arg }
{
    match arg {
        Arg::Const(_word) => {}
        Arg::Of(_) | Arg::Null | Arg::Class(_) | Arg::Func(_) | Arg::Ptr(_) => {}
    }
}

fn arguments_are_words(args: &[Arg])
    ensures { AllByRecursion ArgHasWord args.now }
{
    for arg in args {
        argument_is_word(*arg);
    }
}

fn finish_is_word(finished: Option<Arg>)
    ensures { OpHasWords (opt.Finish finished) }
{
    if let Some(arg) = finished {
        argument_is_word(arg);
    }
}

fn operation_has_words(op: &OptOp)
    ensures { OpHasWords op.now }
{
    match op {
        OptOp::Plain { args, .. } => arguments_are_words(args.items()),
        OptOp::Guard { args, .. } => arguments_are_words(args.items()),
        OptOp::Exit { .. } => {}
        OptOp::Jump { args, .. } => arguments_are_words(args.items()),
        OptOp::Finish { value } => finish_is_word(*value),
    }
}

fn operations_have_words(ops: &[OptOp])
    ensures { AllByRecursion OpHasWords ops.now }
{
    for op in ops {
        operation_has_words(op);
    }
}

pub(crate) fn pieces_have_words(pieces: &[Piece])
    ensures { AllByRecursion (λ (p : Piece). All OpHasWords p.ops) pieces.now }
{
    for piece in pieces {
        operations_have_words(piece.ops.items());
    }
}

/// The constants in the operations of all pieces of these traces are words. It takes as long as there are arguments.
pub fn constants_are_words(traces: &[OptTrace])
    ensures { AllByRecursion (λ (p : Piece). All OpHasWords p.ops) (all_pieces traces.now) }
{
    for trace in traces {
        pieces_have_words(trace.pieces.items());
    }
}
