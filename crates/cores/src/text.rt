// The text of a session: items of four bytes.
ghost use Rattle.std.specs.Prelude.{◌≡◌};
ghost use Rattle.cores.specs.Text.{item_at};

// The item at `place`, or none past the items. Only the first 65,535 whole items count.
pub(crate) fn item_at(text: &[u8], place: u16) -> Option<[u8; 4]>
    ensures { result ≡ item_at text.now place }
{
    if place == 65535 {
        return None;
    }
    text.get(4 * usize::from(place)..)?.first_chunk().copied()
}
