// A split in words: the places of its members, the picks of a child, and the equations that they call for.
//
//     members, sides  where the members of both sides stand
//     picks           the picks of a child from its number, and those of the next one
//     equations       the new equations of a choice of picks
//
// In specs/, `Open`, `OpenParent` and `MemberPlaces` say where everything stands, `Digits` what the picks are, `Gathered` which equations they give.
#![tactic(auto)]

pub mod equations;
pub mod members;
pub mod picks;
pub mod sides;
