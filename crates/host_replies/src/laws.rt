//! Laws of records.

ghost use Rattle.std.specs.Prelude.{◌≡◌, List, map, Ok, All};
ghost use Rattle.wasm_syntax.specs.declared.host.Reply.{Reply as ReplyValue};
ghost use Rattle.host_replies.specs.Replies.{file_replies};
ghost use Rattle.host_replies.specs.Record.{IsReplyTyped, record_text, without_empty};

/// A record is read as the replies that it is of, without their writes of no bytes.
pub fn records_read_back()
    ensures { (replies : List ReplyValue) → All IsReplyTyped replies
        → file_replies (record_text replies) ≡ Ok (map without_empty replies) }
{}
