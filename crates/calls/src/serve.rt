ghost use Rattle.std.specs.Prelude.{◌≡◌, false, ◌≤◌, ◌<◌, Some};
ghost use Rattle.rules.specs.Serves.{buffers, function_of};
ghost use Rattle.rules.specs.Vector.{vector_of};
ghost use Rattle.rules.specs.Codes.{bad_drive};
ghost use Rattle.rules.specs.Locks.{unpack};
ghost use Rattle.rules.specs.Call.{Ready, served};
ghost use Rattle.calls.specs.Calls.{DidBeside, served_by};

use files::close::close_file;
use files::delete::delete_file;
use files::make::make_file;
use files::open::open_file;
use files::rename::rename_file;
use files::size::file_size;
use locking::lock::lock_records;
use locking::terminate::terminate;
use locking::unlock::unlock_records;
use records::read::read_random;
use records::space::free_space;
use records::test::test_write;
use records::write::write;
use rules::code::answer_of;
use rules::kind::Kind;
use rules::list::LockList;
use rules::routine::Routine;
use rules::size::{DMA_SIZE, FCB_SIZE, LIST_SIZE};
use searching::search::{search_first, search_next};
use several::read::read_several;
use several::write::write_several;

// The call's routine; the list comes unpacked too.
pub fn serve(
    kind: Kind,
    routine: Routine,
    p: u8,
    count: u32,
    l: &LockList,
    fcb: &mut [u8; FCB_SIZE],
    dma: &mut [u8; DMA_SIZE],
    list: &mut [u8; LIST_SIZE],
    image: &mut [u8],
    vector: &mut [u8],
) -> u32
    requires { (l.now ≡ unpack list.old) × (p < 16) × (1 ≤ count) × (count ≤ 16) × Ready kind (buffers fcb.old dma.old list.old image.old) × (vector.old ≡ vector_of kind image.old) }
    ensures { DidBeside kind (served kind (Some routine) p count (buffers fcb.old dma.old list.old image.old)) result (buffers fcb.new dma.new list.new image.new) vector.new }
{
    match routine {
        Routine::Open => answer_of(open_file(kind, p, l, fcb, &*dma, list, &*image)),
        Routine::Close => answer_of(close_file(kind, p, l, &*fcb, &*dma, list, &*image)),
        Routine::SearchFirst => search_first(kind, p, l, &*fcb, dma, list, &*image),
        Routine::SearchNext => search_next(kind, p, l, &*fcb, dma, list, &*image),
        Routine::Delete => answer_of(delete_file(kind, p, l, &*fcb, &*dma, list, image, vector)),
        Routine::Make => answer_of(make_file(kind, p, l, fcb, &*dma, list, image)),
        Routine::Rename => answer_of(rename_file(kind, p, l, &*fcb, &*dma, &*list, image)),
        Routine::Read => answer_of(read_random(kind, p, l, &*fcb, dma, &*list, &*image)),
        Routine::Write => answer_of(write(kind, false, p, l, &*fcb, &*dma, &*list, image, vector)),
        Routine::Size => answer_of(file_size(kind, p, l, fcb, &*dma, &*list, &*image)),
        Routine::WriteZeros => answer_of(write(
            kind, true, p, l, &*fcb, &*dma, &*list, image, vector,
        )),
        Routine::TestWrite => answer_of(test_write(
            kind, p, l, &*fcb, &*dma, &*list, image, &*vector,
        )),
        Routine::Lock => answer_of(lock_records(kind, p, l, count, &*fcb, &*dma, list, &*image)),
        Routine::Unlock => answer_of(unlock_records(
            kind, p, l, count, &*fcb, &*dma, list, &*image,
        )),
        Routine::FreeSpace => {
            free_space(kind, p, &*fcb, dma, &*list, &*image, &*vector);
            0
        }
        Routine::Terminate => {
            terminate(kind, p, l, &*fcb, &*dma, list, &*image);
            0
        }
    }
}

// The call's routine, where `several` over a run of records for 33, 34 and 40.
pub fn serve_by(
    kind: Kind,
    several: bool,
    routine: Routine,
    p: u8,
    count: u32,
    l: &LockList,
    fcb: &mut [u8; FCB_SIZE],
    dma: &mut [u8; DMA_SIZE],
    list: &mut [u8; LIST_SIZE],
    image: &mut [u8],
    vector: &mut [u8],
) -> u32
    requires { (p < 16) × (l.now ≡ unpack list.old) × (1 ≤ count) × (count ≤ 16) × (bad_drive (function_of routine) fcb.old ≡ false) × Ready kind (buffers fcb.old dma.old list.old image.old) × (vector.old ≡ vector_of kind image.old) }
    ensures { DidBeside kind (served_by kind several (function_of routine) routine p count (buffers fcb.old dma.old list.old image.old)) result (buffers fcb.new dma.new list.new image.new) vector.new }
{
    match routine {
        Routine::Read if several => read_several(kind, p, l, count, &*fcb, dma, &*list, &*image),
        Routine::Write if several => write_several(
            kind, false, p, l, count, &*fcb, &*dma, &*list, image, vector,
        ),
        Routine::WriteZeros if several => write_several(
            kind, true, p, l, count, &*fcb, &*dma, &*list, image, vector,
        ),
        _ => serve(kind, routine, p, count, l, fcb, dma, list, image, vector),
    }
}
