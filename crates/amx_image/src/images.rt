ghost use Rattle.amx_image.specs.Resumed.{AnImageIsOfOneState, ImagesKeepTheTrace};

/// Bytes are the image of one version, state and position at most, where machines can be set to the
/// states at a sleep.
pub fn an_image_is_of_one_state()
    ensures { AnImageIsOfOneState }
{}

/// The segment from what was read of an image is the segment from what was saved in it. So the
/// lines of a run, and behind them those of its resumes, are the lines of the trace over their
/// bounds, and it stops as the last of them does.
#[tactic(auto, using(crate::proofs::ResumeLaws::kept))]
pub fn images_keep_the_trace()
    ensures { ImagesKeepTheTrace }
{}
