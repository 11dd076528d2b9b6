//! Laws of the canonical bytes.

ghost use Rattle.dump_format.specs.declared.dump.Dump.{Dump as DumpValue};
ghost use Rattle.dump_write.specs.calls.Laws.{ReadsBack, KeepsMemory};

/// Within the limits of dumps, the canonical bytes are read as the canonical dump: it has the same
/// name, size of memory, globals and frames, but for their instance, which has the index 0.
pub fn canonical_bytes_read_back()
    ensures { (d : DumpValue) → ReadsBack d }
{}

/// The canonical dump has the same bytes of memory.
pub fn canonical_memory_is_kept()
    ensures { (d : DumpValue) → KeepsMemory d }
{}
