//! What holds of lanes that are fed. The function does nothing: what it ensures is the law.
ghost use Rattle.lane_team.specs.OneTaking.{OneTaking};

/// What a feed adds to a lane is one: its lock, and the characters of that feed.
pub fn one_taking()
    ensures { OneTaking }
{}
