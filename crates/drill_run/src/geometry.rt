ghost use Rattle.std.specs.Prelude.{◌≡◌};
ghost use Rattle.drill_run.specs.Drills.{drill_shape};

use rma_layout::Geometry;

/// The geometry of the program's drills: 4 ranks of 65,536 blocks of 16 words, with 64 buckets and 16 slots a rank.
pub fn drill_geometry() -> Geometry
    ensures { result ≡ drill_shape }
{
    match Geometry::new(4, 65_536, 16, 64, 16) {
        Ok(geometry) => geometry,
        Err(_) => unreachable!(),
    }
}
