//! Laws of what collector calls hand over.

ghost use Rattle.std.specs.Prelude.{◌≡◌, List};
ghost use Rattle.wasm_syntax.specs.declared.host.CollectorCall.{CollectorCall as Call};
ghost use Rattle.run_session.specs.Delivery.{Delivery, Delivers, IsDelivery};

/// Calls hand over one thing.
pub fn one_delivery()
    ensures { (calls : List Call) (a b : Delivery) → Delivers calls a → Delivers calls b → a ≡ b }
{}

/// Each list of calls hands something over.
pub fn some_delivery()
    ensures { (deliver : List Call → Delivery) × IsDelivery deliver }
{}
