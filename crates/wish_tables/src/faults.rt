//! What a table refuses, as a fault of a wish.
use plan_base::Denied;
use production_table::TableFault;
use wish_setups::WishFault;

/// Too much of something, where there is.
pub fn told<T: Drop>(done: Result<T, Denied<TableFault>>) -> Result<(), WishFault> {
    match done {
        Ok(_) => Ok(()),
        Err(Denied::Refused(_)) => Err(WishFault::Full),
        Err(Denied::NoMemory) => Err(WishFault::NoMemory),
    }
}
