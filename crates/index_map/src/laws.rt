//! Laws of the definitions.

ghost use Rattle.std.specs.Prelude.{◌≡◌, ◌≢◌, ℕ, ◌<◌, [], ◌∷◌, length, true, slice_get, Some};
ghost use Rattle.wasm_syntax.specs.declared.instruction.Op.{Op};
ghost use Rattle.wasm_syntax.specs.declared.parts.Body.{Body};
ghost use Rattle.wasm_syntax.specs.declared.module.ModuleParts.{ModuleParts as Parts};
ghost use Rattle.wasm_syntax.specs.declared.value.ValType.{ValType as Sort};
ghost use Rattle.wasm_syntax.specs.Module.{Program, IsProgram, function_types};
ghost use Rattle.rewrite_bodies.specs.Numbering.{frame_import, helped, helper_base, is_in, mapped, place_in};
ghost use Rattle.rewrite_bodies.specs.Numbering.{value_import, wrapper_base};
ghost use Rattle.rewrite_modules.specs.Weight.{type_used, types_used};
ghost use Rattle.index_map.specs.calls.Wrapper.{HasWrapper, wrapper_of};

/// A type that an instruction of the module uses has a helper, and the types that flat code uses
/// are those of its trees.
pub fn used_types_have_helpers()
    ensures flat { (m : Parts) (i j t : ℕ) (body : Body) (o : Op) → slice_get m.bodies i ≡ Some body
        → slice_get body.ops j ≡ Some o → type_used o.code ≡ t ∷ []
        → is_in t (types_used m) ≡ true }
    ensures trees { (p : Program) → IsProgram p → helped p ≡ types_used p.module_ }
{}

/// The numbers of functions are distinct: those of the module's functions, of the collector's
/// imports, of the wrappers behind them and of the helpers behind these.
pub fn numbers_are_distinct()
    ensures functions { (m : Parts) (f g : ℕ) → mapped m f ≡ mapped m g → f ≡ g }
    ensures values { (m : Parts) (t u : Sort) → value_import m t ≡ value_import m u → t ≡ u }
    ensures value_no_frame { (m : Parts) (t : Sort) → value_import m t ≢ frame_import m }
    ensures function_no_value { (m : Parts) (f : ℕ) (t : Sort) → mapped m f ≢ value_import m t }
    ensures function_no_frame { (m : Parts) (f : ℕ) → mapped m f ≢ frame_import m }
    ensures functions_before_wrappers { (m : Parts) (f : ℕ) → f < length (function_types m)
        → mapped m f < wrapper_base m }
    ensures wrappers { (m : Parts) (i j : ℕ) → HasWrapper m i → HasWrapper m j
        → wrapper_of m i ≡ wrapper_of m j → i ≡ j }
    ensures wrappers_before_helpers { (m : Parts) (i : ℕ) → HasWrapper m i
        → wrapper_of m i < helper_base m }
    ensures helpers { (m : Parts) (t u : ℕ) → is_in t (types_used m) ≡ true
        → is_in u (types_used m) ≡ true → place_in t (types_used m) ≡ place_in u (types_used m)
        → t ≡ u }
{}
