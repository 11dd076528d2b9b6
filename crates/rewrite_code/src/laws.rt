//! How pieces are put together.

ghost use Rattle.std.specs.Prelude.{◌≡◌, List, Option, Some};
ghost use Rattle.wasm_syntax.specs.declared.value.ValType.{ValType as TypeOf};
ghost use Rattle.wasm_syntax.specs.Tree.{Nodes, stop, choose};
ghost use Rattle.rewrite_modules.specs.calls.FlatCode.{ops_in, targets_in};
ghost use Rattle.rewrite_code.specs.calls.Writing.{Written, written, nothing, with_nodes, Emits, EmitsLast, Opens};
ghost use Rattle.rewrite_code.specs.calls.Writing.{OpensArms, Alternates, Closes};

/// A piece and the one behind it; a piece and the last nodes; the beginning of a block, its nodes
/// and its end; both arms of an `if`.
pub fn pieces_compose()
    ensures in_order { (P Q : Nodes → Nodes) (a b c : Written) → Emits P a b → Emits Q b c
        → Emits (λ k. P (Q k)) a c }
    ensures last { (P : Nodes → Nodes) (nodes : Nodes) (a b c : Written) → Emits P a b
        → EmitsLast nodes b c → EmitsLast (P nodes) a c }
    ensures within { (P : Nodes → Nodes → Nodes) (inner : Nodes) (a b c d : Written) → Opens P a b
        → EmitsLast inner b c → Closes c d → Emits (λ k. P inner k) a d }
    ensures arms { (t : Option TypeOf) (arm other : Nodes) (a b c d e f : Written) → OpensArms t a b
        → EmitsLast arm b c → Alternates c d → EmitsLast other d e → Closes e f
        → Emits (λ k. choose 0 t arm (Some 0) other 0 k) a f }
{}

/// What was written is the flat code of the nodes, behind the code before: so all of a tree is its
/// flat code, with its targets.
pub fn nodes_are_written_out()
    ensures piece { (P : Nodes → Nodes) (a b : Written) → Emits P a b → b ≡ with_nodes a (P stop) }
    ensures last { (nodes : Nodes) (a b : Written) → EmitsLast nodes a b → b ≡ with_nodes a nodes }
    ensures whole { (nodes : Nodes) (w : Written) → EmitsLast nodes nothing w
        → w ≡ written (ops_in 0 nodes) (targets_in nodes) }
{}
