//! Laws of the definitions.

ghost use Rattle.std.specs.Prelude.{◌≡◌, ◌<◌, ◌≤◌, ◌^◌, ℕ, List, length, None};
ghost use Rattle.wasm_syntax.specs.declared.quantity.Quantity.TheVariants.{Height};
ghost use Rattle.wasm_syntax.specs.declared.module.ModuleParts.{ModuleParts as Parts};
ghost use Rattle.wasm_syntax.specs.Quantity.{greatest};
ghost use Rattle.wasm_syntax.specs.Sizes.{WithinLimits};
ghost use Rattle.wasm_syntax.specs.Valid.{Valid};
ghost use Rattle.wasm_format_laws.specs.calls.Sized.{Sized};
ghost use Rattle.rewrite_modules.specs.Instrumentable.{LightEnough};
ghost use Rattle.rewrite_modules.specs.Weight.{AreHeights, height_at, weight};
ghost use Rattle.index_map.specs.Limits.{first_excess};

/// A valid module in which no quantity passes is within the limits of the rewriting.
pub fn limits_are_kept()
    ensures { (m : Parts) (heights : List (List ℕ)) → Valid m → AreHeights m heights
        → length heights ≤ length m.bodies → first_excess m heights ≡ None → LightEnough m }
{}

/// The weight is a number of 64 bits.
pub fn weights_fit()
    ensures { (m : Parts) (heights : List (List ℕ)) → Sized m → WithinLimits m
        → ((i op : ℕ) → height_at heights i op ≤ greatest Height) → weight m heights < 2 ^ 64 }
{}
