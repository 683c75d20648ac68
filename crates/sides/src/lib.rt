// The numbers of a side and its settings.
#![tactic(auto)]

ghost use Rattle.std.specs.Prelude.{◌≡◌};
ghost use Rattle.rules.specs.Moves.{risen, settled, stored_sides, fallen};

use rules::{Settings, Side};

// DestinationID rises by one, 4,294,967,295 going to 0.
pub fn raise(d: u32) -> u32
    ensures { result ≡ risen d }
{
    d.wrapping_add(1)
}

// 2 keeps the setting.
pub fn settle(asked: u8, kept: u8) -> u8
    ensures { result ≡ settled asked kept }
{
    if asked == Settings::DEVICE {
        kept
    } else {
        asked
    }
}

// −1 on the glass is stored as 1.
pub fn stored_sides(from: u8, asked: u32) -> u32
    ensures { result ≡ stored_sides from asked }
{
    if (from != 1) & (asked == Side::ENDLESS) {
        1
    } else {
        asked
    }
}

// A positive SideCount falls by one, −1 stays.
pub fn fall(count: u32) -> u32
    ensures { result ≡ fallen count }
{
    if count == Side::ENDLESS {
        count
    } else {
        count.saturating_sub(1)
    }
}
