ghost use Rattle.std.specs.Prelude.{◌≡◌, ◌++◌, List, All};
ghost use Rattle.front_base.specs.Line as base;
ghost use Rattle.truncate_backend.specs.Tries.{Try, IsNoted, IsDone, lines_of, sent_bytes};
ghost use Rattle.log_sink.specs.Texts.{log_text};

use truncate_backend::tries_send_their_texts;

/// The text of lines is that of each, one after another. Where each try is Done, tries sent the text of all their lines.
pub fn log_texts_join()
    ensures lines { (these those : List base.Line) → log_text (these ++ those) ≡ log_text these ++ log_text those }
    ensures done { (tries : List Try) → All (IsNoted log_text) tries → All IsDone tries
        → sent_bytes log_text tries ≡ log_text (lines_of tries) }
{
    tries_send_their_texts();
}
