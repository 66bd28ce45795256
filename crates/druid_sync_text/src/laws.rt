//! Facts that hold of all replies.
ghost use Rattle.std.specs.Prelude.{◌≡◌, ◌≤◌, ℕ, [], Some};
ghost use Rattle.serde_json.specs.Read.{read};
ghost use Rattle.druid_segment_descriptor.specs.ReplyBody.{IsReply};
ghost use Rattle.druid_segment_descriptor.specs.declared.reply.Body.{Body};
ghost use Rattle.druid_segment_descriptor.specs.Mark.{Point, IsWord};
ghost use Rattle.druid_segment_descriptor.specs.declared.change.Ask.TheVariants.{Whole, Since, Page};
ghost use Rattle.druid_sync_text.specs.Asks.{query_text, page_query, ask_at};
ghost use Rattle.druid_sync_text.specs.Written.{reply_data, reply_text, IsOfDescriptors, IsOfWords};
ghost use Rattle.druid_sync_text.specs.Read.{form_at, form_of};

/// The text of a reply is JSON, which has the form of that reply, so it is read back as what was written.
pub fn replies_are_read_back()
    ensures text { (body : Body) → IsOfDescriptors body → IsOfWords body → read (reply_text body) ≡ Some (reply_data body) }
    ensures form { (body : Body) → IsReply body → IsOfDescriptors body → form_at (reply_data body) ≡ Some (form_of body) }
{}

/// What is written of an ask is read as that ask.
pub fn asks_are_read_back()
    ensures whole { ask_at [] ≡ Some Whole }
    ensures since { (m : Point) → IsWord m → 1 ≤ m.incarnation → ask_at (query_text m) ≡ Some (Since m) }
    ensures page { (m : Point) (page : ℕ) → IsWord m → 1 ≤ m.incarnation → page ≤ 65_535 → ask_at (page_query m page) ≡ Some (Page m page) }
{}
