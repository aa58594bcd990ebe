//! Laws on the verdict of a volume. The functions do nothing: what they say is proved.
ghost use Rattle.fixity.specs.Verdicts.{VolumesHaveOneVerdict};

/// A volume's bytes have one verdict.
pub fn volumes_have_one_verdict()
    ensures { VolumesHaveOneVerdict }
{}
