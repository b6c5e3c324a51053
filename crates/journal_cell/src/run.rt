//! The run to which a cell belongs.

ghost use Rattle.std.specs.Prelude.{ℕ};
ghost use Rattle.wedge_base.specs.Images.{Image};

use std::marker::Brand;

/// Stands for a run, so that the type of a locked value can speak of its image, and that of a log of what logs of the run
/// keep: all entries but those on so many slots, the first ones. It has no call; who starts a run picks both.
pub trait RunOf {
    ghost image: { Image };

    ghost unkept: { ℕ };
}

impl RunOf for Brand {
    ghost use Rattle.std.specs.Prelude.{[]};
    ghost use Rattle.wedge_base.specs.Images.{Image};

    ghost image = { record {
      fuel = 0;
      base = 0;
      words = [];
      procedures = [];
      entry = 0;
      ranges = [];
      tags = [];
      fds = [];
      files = [];
      user = 0;
      root = [];
    } };

    ghost unkept = { 0 };
}
