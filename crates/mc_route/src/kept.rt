//! What is kept of a request for its answer.
ghost use Rattle.std.specs.Prelude.{◌≡◌, IfOk};
ghost use Rattle.mc_route.specs.Kept.{emptied, emptied_meta, without_block};

use crate::errors::RouteError;
use mc_request::{MetaCommand, Request, Update};
use mc_text::{Block, Key};
use std::alloc::{AllocError, Global};

/// Copies a request without its data block. The answer of [`crate::join`] by the copy is the same. A caller that sends
/// the commands of [`crate::atoms`], which have copies of the block, keeps this one for the answer.
pub fn without_block(alloc: Global, request: &Request) -> Result<Request, RouteError>
    ensures { IfOk result (λ kept. kept ≡ without_block request.now) }
{
    Ok(match request {
        Request::Get {
            keys,
            exptime,
            with_cas,
        } => Request::Get {
            keys: keys.clone()?,
            exptime: *exptime,
            with_cas: *with_cas,
        },
        Request::Update { update, noreply } => Request::Update {
            update: update_without_block(alloc, update)?,
            noreply: *noreply,
        },
        Request::Meta { command, form } => Request::Meta {
            command: meta_without_block(alloc, command)?,
            form: form.clone()?,
        },
        Request::MetaNoop => Request::MetaNoop,
        Request::Version => Request::Version,
        Request::Quit => Request::Quit,
    })
}

/// Copies a meta command without its data block.
pub fn meta_without_block(
    alloc: Global,
    command: &MetaCommand<Key, Block>,
) -> Result<MetaCommand<Key, Block>, AllocError>
    ensures { IfOk result (λ kept. kept ≡ emptied_meta command.now) }
{
    Ok(match command {
        MetaCommand::Get { key, get } => MetaCommand::Get {
            key: key.clone()?,
            get: *get,
        },
        MetaCommand::Update { update, show } => MetaCommand::Update {
            update: update_without_block(alloc, update)?,
            show: *show,
        },
    })
}

/// Copies an update without its data block.
pub fn update_without_block(
    alloc: Global,
    update: &Update<Key, Block>,
) -> Result<Update<Key, Block>, AllocError>
    ensures { IfOk result (λ kept. kept ≡ emptied update.now) }
{
    Ok(match update {
        Update::Store {
            mode,
            compare,
            key,
            flags,
            exptime,
            block: _,
        } => Update::Store {
            mode: *mode,
            compare: *compare,
            key: key.clone()?,
            flags: *flags,
            exptime: *exptime,
            block: Block::new(alloc),
        },
        Update::Touch { key, exptime } => Update::Touch {
            key: key.clone()?,
            exptime: *exptime,
        },
        Update::Delete {
            key,
            compare,
            invalidate,
        } => Update::Delete {
            key: key.clone()?,
            compare: *compare,
            invalidate: *invalidate,
        },
        Update::Count { key, counting } => Update::Count {
            key: key.clone()?,
            counting: *counting,
        },
        Update::FlushAll { delay } => Update::FlushAll { delay: *delay },
    })
}
