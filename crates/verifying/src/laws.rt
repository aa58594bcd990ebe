//! What verdicts on volumes promise to those who build on them.
ghost use Rattle.verifying.specs.Verified.{SoundVolumesVerify, VolumesVerifyOneWay};

/// Where what a read gives stands for a sound book, no volume of it is found damaged. What is found of the same bytes is one, whatever is known.
pub fn sound_volumes_verify()
    ensures sound { SoundVolumesVerify }
    ensures one { VolumesVerifyOneWay }
{}
