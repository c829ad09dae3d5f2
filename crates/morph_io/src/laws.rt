//! The numbers of the limits: the constants of the code are those that the definitions own.
ghost use Rattle.std.specs.Prelude.{◌≡◌};
ghost use Rattle.morph_io.specs.Limits.{line_bytes, most_retries, out_bytes};
ghost use Rattle.morph_io.specs.declared.line_buf.TheConstants.{LINE_BYTES};
ghost use Rattle.morph_io.specs.declared.output.TheConstants.{OUT_BYTES};
ghost use Rattle.morph_io.specs.declared.retries.TheConstants.{MAX_RETRIES};

/// Each constant of the code is the number that `specs/Limits` owns. A changed constant is refused here.
pub fn limits()
    ensures out { OUT_BYTES ≡ out_bytes }
    ensures line { LINE_BYTES ≡ line_bytes }
    ensures retries { MAX_RETRIES ≡ most_retries }
{}
