// The group of reports.
ghost use Rattle.rm_pool.specs.Pools.{IsOfValid};
ghost use Rattle.rm_topn.specs.Held.{HaveEndedBy, of_valid_prop, ended_prop};

use crate::control_columns::ControlColumns;
use crate::course::Course;
use rm_pool::Pool;
use rm_status::Controls;

/// The reports of the hosts that gained most: hostTopNControlTable and hostTopNTable (RFC 1757, section 5). It is a group that stands
/// beside that of the hosts. Each valid row of hostTopNControl has the storage of its reports; other storage may be spare.
#[derive(Drop)]
pub struct Reports {
    pub(crate) rows: Controls<ControlColumns>,
    pub(crate) courses: Pool<Course>,
    // How many frames passed.
    pub(crate) frames: u32,
    // The moment of the last frame, Set or end of a report, in milliseconds.
    pub(crate) last: u32,
    ghost of_valid: { IsOfValid courses rows } by { of_valid_prop courses rows },
    ghost ended: { HaveEndedBy courses last } by { ended_prop courses last },
}
