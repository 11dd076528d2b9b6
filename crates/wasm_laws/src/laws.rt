//! Laws of the definitions.

ghost use Rattle.std.specs.Prelude.{◌≡◌, ◌↔◌, ◌-◌, ◌≤◌, ◌+◌, ℕ, length, reverse, slice_get, Bool, List, [], Option};
ghost use Rattle.std.specs.Prelude.{option_to_list};
ghost use Rattle.wasm_syntax.specs.declared.value.ValType.{ValType};
ghost use Rattle.wasm_syntax.specs.declared.value.Value.{Value as AnyValue};
ghost use Rattle.wasm_syntax.specs.declared.instruction.Basic.{Basic as Instruction};
ghost use Rattle.wasm_syntax.specs.declared.instruction.Op.{Op as CodeOp};
ghost use Rattle.wasm_syntax.specs.declared.parts.Body.{Body as FunctionBody};
ghost use Rattle.wasm_syntax.specs.declared.parts.FuncType.{FuncType as Signature};
ghost use Rattle.wasm_syntax.specs.declared.module.ModuleParts.{ModuleParts as Parts};
ghost use Rattle.wasm_syntax.specs.declared.host.Reply.{Reply as HostReply};
ghost use Rattle.wasm_syntax.specs.Module.{Program, IsProgram, InOrder};
ghost use Rattle.wasm_syntax.specs.Tree.{Placed, Tree, Nodes, WritesOut, code_of, item_of};
ghost use Rattle.wasm_syntax.specs.Host.{World};
ghost use Rattle.wasm_syntax.specs.Effect.{effect};
ghost use Rattle.wasm_syntax.specs.Typing.{Context, arrow, Types, IsBody, BeginsBody, body_context};
ghost use Rattle.wasm_syntax.specs.FlatTyping.{FlatTypes, OpenBlock, body_block, BeginsNode, TypesBefore};
ghost use Rattle.wasm_syntax.specs.Valid.{Valid};
ghost use Rattle.wasm_syntax.specs.Static.{Static, Left};
ghost use Rattle.wasm_syntax.specs.Run.{Invocation, run};
ghost use Rattle.wasm_syntax.specs.calls.Classes.{Does, effect_class, type_source, source_arrow};
ghost use Rattle.wasm_laws.specs.calls.Literal.{Has};
ghost use Rattle.wasm_laws.specs.calls.Runs.{Stay, NoneStuck};

/// An instruction does what its class may do, and its type is what it comes from.
pub fn each_is_of_its_class()
    ensures does { (i : Instruction) (w : World) (locals operands : List AnyValue)
        → Does (effect_class i) w locals (effect i w locals operands) }
    ensures types { (c : Context) (any : ValType) (i : Instruction)
        → arrow c any i ≡ source_arrow c any (type_source i) }
{}

/// A flat body writes out at most one tree.
pub fn one_tree()
    ensures { (code : List Placed) (a b : Tree) → WritesOut code a → WritesOut code b → a ≡ b }
{}

/// The typing over trees is the relation of Core 3.3, rule by rule.
pub fn typing_is_literal()
    ensures { (c : Context) (nodes : Nodes) (before after : List ValType)
        → Has c nodes before after ↔ Types c nodes before after }
{}

/// A flat body is that of a well-typed tree exactly where flat steps lead through it.
pub fn flat_typing_is_the_same()
    ensures { (m : Parts) (ftype : Signature) (body : FunctionBody) (given : Option ValType)
        (code : List Placed) → reverse ftype.results ≡ option_to_list given
        → IsBody m ftype body code ↔ FlatTypes (body_context m ftype body) (body_block given) code
        [] }
{}

/// Instructions begin a well-typed body exactly where flat steps lead through them.
pub fn flat_steps_begin_bodies()
    ensures { (m : Parts) (ftype : Signature) (body : FunctionBody) (given : Option ValType)
        (code : List Placed) → reverse ftype.results ≡ option_to_list given
        → BeginsBody m ftype body code ↔
        ((blocks : List OpenBlock) × FlatTypes (body_context m ftype body) (body_block given) code
        blocks) }
{}

/// The operand types before the live instruction at an offset are unique.
pub fn one_static()
    ensures { (m : Parts) (ftype : Signature) (body : FunctionBody) (offset : ℕ)
        (a b : List ValType) → InOrder body → Static m ftype body offset a
        → Static m ftype body offset b → a ≡ b }
{}

/// The operand types that the live call at an offset leaves below what it takes are unique.
pub fn one_left()
    ensures { (m : Parts) (ftype : Signature) (body : FunctionBody) (offset : ℕ)
        (a b : List ValType) → InOrder body → Left m ftype body offset a
        → Left m ftype body offset b → a ≡ b }
{}

/// The operand types before the live instruction at an offset are those before it in the flat code.
pub fn flat_static_is_the_same()
    ensures { (m : Parts) (ftype : Signature) (body : FunctionBody) (given : Option ValType) (i : ℕ)
        (op : CodeOp) (types : List ValType) → reverse ftype.results ≡ option_to_list given
        → InOrder body → IsBody m ftype body (code_of body.targets body.ops)
        → slice_get body.ops i ≡ Some op → BeginsNode (item_of body.targets op.code)
        → Static m ftype body op.at types ↔ TypesBefore m ftype body i types }
{}

/// What an invocation came to, other than being still under way, it comes to with every greater
/// number of steps; only more of them are left.
pub fn outcome_stays()
    ensures { (p : Program) (collecting : Bool) (invocations : List Invocation)
        (replies : List HostReply) (depth n m : ℕ) → n ≤ m
        → Stay (m - n) (run p collecting invocations replies depth n)
        (run p collecting invocations replies depth m) }
{}

/// No run of a valid module gets stuck, whatever the invocations, their arguments, the replies, the
/// depth and the number of steps.
pub fn never_stuck()
    ensures { (p : Program) (collecting : Bool) (invocations : List Invocation)
        (replies : List HostReply) (depth n : ℕ) → IsProgram p
        → length p.module_.bodies ≡ length p.module_.functions → Valid p.module_
        → NoneStuck (run p collecting invocations replies depth n) }
{}
