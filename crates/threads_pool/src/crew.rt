//! Workers are given their passes, and give them back.

ghost use Rattle.std.specs.Prelude.{◌≡◌, ◌≤◌, [], vec_capacity, vec_len};
ghost use Rattle.std.specs.List.{All};
ghost use Rattle.threads_queue.specs.Tickets.{new_pass};
ghost use Rattle.threads_pool.specs.inner.Workers.{HasFinished, IsPlace, IsWorker, KnowsClosed};

use super::shop::Shop;
use super::worker::Worker;
use threads_lock::Pass;
use threads_queue::QueuePass;

/// A worker for each pair of passes.
pub fn hire(shop: &Shop, places: Vec<Pass>, mut tickets: Vec<QueuePass>, crew: &mut Vec<Worker>)
    requires places { All (IsPlace shop.now) places.items }
    requires tickets { All (λ pass. pass ≡ new_pass shop.now.queue) tickets.items }
    requires pairs { vec_len tickets ≡ vec_len places }
    requires room { (crew.old.items ≡ []) × (vec_len places ≤ vec_capacity crew.old) }
    ensures len { vec_len crew.new ≡ vec_len places }
    ensures own { All (IsWorker shop.now) crew.new.items }
{
    for place in places {
        let Some(own) = tickets.pop() else {
            unreachable!()
        };
        crew.push_reserved(Worker::hired(shop, place, own));
    }
}

/// The workers' passes of the shared monitor, once all have ended.
pub fn dismiss(shop: &Shop, crew: Vec<Worker>, places: &mut Vec<Pass>)
    requires own { All (HasFinished shop.now) crew.items }
    requires room { (places.old.items ≡ []) × (vec_len crew ≤ vec_capacity places.old) }
    ensures len { vec_len places.new ≡ vec_len crew }
    ensures own { All (λ pass. pass.lock ≡ shop.now.monitor.lock) places.new.items }
    ensures closed { All KnowsClosed places.new.items }
{
    for worker in crew {
        places.push_reserved(worker.into_place(shop));
    }
}
