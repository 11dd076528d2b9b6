//! Lists of texts.

ghost use Rattle.dwarf_bytes.specs.Format.{read, text_or_end};

use crate::ended::Ended;
use crate::items::text;
use std::alloc::Global;
use wasm_bytes::{ItemFault, Reader, Run};

/// A text. An empty one ends the list.
impl<'a> Ended<'a> for Run<'a> {
    ghost item = { read text_or_end };

    #[tactic(auto, unfolding(crate::specs::Format::read))]
    fn read(_alloc: Global, reader: &mut Reader<'a>) -> Result<Option<Run<'a>>, ItemFault> {
        let bytes = text(reader)?;
        if bytes.is_empty() {
            Ok(None)
        } else {
            Ok(Some(Run::new(bytes)))
        }
    }
}
