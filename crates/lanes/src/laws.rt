// What holds of every find on a lane. There is no code here: the clause is a law.
ghost use Rattle.lanes.specs.Lane.{LaneFindsAreTrue};

/// Whatever a step of the taker does: where it counts one find more and keeps the rule of the lane, the taker then knows each line
/// that was posted. So no body of `LaneTaker::take` can count a find without one.
pub fn every_true_lane_find()
    ensures { LaneFindsAreTrue }
{}
