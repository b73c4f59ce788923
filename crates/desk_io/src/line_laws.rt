//! What holds of the lines of any bytes.

ghost use Rattle.std.specs.Prelude.{◌≡◌, ◌<◌, [], ◌∷◌, length};
ghost use Rattle.desk_io.specs.Lines.{lines, first_line, after_first_line};

/// Lines are cut off from the front: bytes have a first line and then the lines of what stands behind it, and no bytes have none.
#[tactic(auto, using(crate::proofs::LineLaws::line_laws))]
pub fn lines_go_on_behind_the_first(bytes: &[u8])
    ensures some { 0 < length bytes.now → lines bytes.now ≡ first_line bytes.now ∷ lines (after_first_line bytes.now) }
    ensures none { lines [] ≡ [] }
{
    let _ = bytes;
}
