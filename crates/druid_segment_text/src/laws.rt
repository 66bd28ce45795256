ghost use Rattle.std.specs.Prelude.{◌≡◌, Ok};
ghost use Rattle.druid_segment_descriptor.specs.Described.{Described, IsDescribed};
ghost use Rattle.druid_segment_text.specs.Json.{descriptor_at, descriptor_data};

/// What is written of a descriptor is read back as that descriptor.
pub fn descriptors_are_read_back()
    ensures { (d : Described) → IsDescribed d → descriptor_at (descriptor_data d) ≡ Ok d }
{}
