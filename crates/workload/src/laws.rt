//! Laws of the definitions: each is the contract of a function that does nothing.

ghost use Rattle.std.specs.Prelude.{◌≤◌, ℕ};
ghost use Rattle.image_form.specs.Rules.{IsImage};
ghost use Rattle.workload.specs.Workload.{workload};

/// The workload of up to 200 workers keeps every rule of an image.
pub fn workloads_are_images()
    ensures { (n : ℕ) → n ≤ 200 → IsImage (workload n) }
{}
