// Roster files for C, without a desk: two districts joined (request W-210), and a roster stored in walking order and back (W-214); each into a
// lent buffer. The numbers are a refusal, or 0 and the length written.
ghost use Rattle.model_files.specs.Routes.{way_back, store_of, unstore_of};
ghost use Rattle.districts.specs.Joins.{Joins};
ghost use Rattle.routes.specs.Storing.{StoresBy};
ghost use Rattle.abi.specs.WrittenFiles.{Told};

use abi_numbers::Outcome;

// two roster files as one; out has at least 4,262 bytes, else 15
#[unsafe(no_mangle)]
pub extern "C" fn crew_join_districts(first: &[u8], second: &[u8], out: &mut [u8]) -> Outcome
    ensures { Told (λ x. Joins first.now second.now out.old x out.new) result }
{
    let a = districts::join(first, second, out);
    abi_numbers::written_numbers(a)
}

// a route and a roster, with the stands in the route's order; out has at least 4,295 bytes, else 15
#[unsafe(no_mangle)]
pub extern "C" fn crew_store(file: &[u8], out: &mut [u8]) -> Outcome
    ensures { Told (λ x. StoresBy (λ route. route) store_of unstore_of file.now out.old x out.new) result }
{
    let a = routes::store(file, out);
    abi_numbers::written_numbers(a)
}

// a stored file as it was before; out has at least 4,295 bytes, else 15
#[unsafe(no_mangle)]
pub extern "C" fn crew_unstore(file: &[u8], out: &mut [u8]) -> Outcome
    ensures { Told (λ x. StoresBy way_back unstore_of store_of file.now out.old x out.new) result }
{
    let a = routes::unstore(file, out);
    abi_numbers::written_numbers(a)
}
