// A pod on the heap, as C holds it: its address, and whether there is one.
ghost use Rattle.std.specs.Prelude.{◌≡◌, Some, None, Option, option_map};
ghost use Rattle.c_pods.specs.declared.held_pod.HeldPod.{HeldPod as Held};

use crate::held_pod::HeldPod;
use std::alloc::Global;
use std::marker::Model;
use std::mem::replace;
use std::ptr::null_mut;

/// A pod, or none: all zeros are none. C keeps it, never writes it, and never copies it.
#[repr(C)]
pub struct PodHandle {
    at: *mut u8,
    made: bool,
    alloc: Global,
    pub ghost pod: { Option Held },
}

impl Model for PodHandle {
    ghost use Rattle.c_pods.specs.contracts.held_pod.HeldPod.{the_row as pod_row};
    ghost use Rattle.c_pods.specs.Handle.{handle_owns};
    ghost use Rattle.std.specs.contracts.impls.GlobalAllocator.TheImpl.{ghosts};

    ghost also_owns = { λ h. handle_owns (ghosts.dealloc_token h.alloc) pod_row h.made h.at h.pod };
}

impl PodHandle {
    /// A handle with no pod.
    pub fn empty(alloc: Global) -> PodHandle
        ensures { result.pod ≡ None }
    {
        PodHandle {
            at: null_mut(),
            made: false,
            alloc,
        }
    }

    fn full(held: Box<HeldPod>) -> PodHandle
        ensures { result.pod ≡ Some held.value }
    {
        let (at, alloc) = Box::into_raw_with_allocator(held);
        PodHandle {
            at: at as *mut u8,
            made: true,
            alloc,
        }
    }

    fn into_option(self) -> Option<Box<HeldPod>>
        ensures { option_map (λ b. b.value) result ≡ self.pod }
    {
        let PodHandle { at, made, alloc } = self;
        if !made {
            return None;
        }
        Some(unsafe { Box::from_raw(alloc, at as *mut HeldPod) })
    }

    /// Takes the pod out, if there is one.
    #[inline(always)]
    pub fn take(&mut self, alloc: Global) -> Option<Box<HeldPod>>
        ensures pod { option_map (λ b. b.value) result ≡ self.old.pod }
        ensures empty { self.new.pod ≡ None }
    {
        replace(self, PodHandle::empty(alloc)).into_option()
    }

    /// Puts a pod in. One that was there is freed.
    #[inline(always)]
    pub fn fill(&mut self, pod: Box<HeldPod>)
        ensures { self.new.pod ≡ Some pod.value }
    {
        *self = PodHandle::full(pod);
    }
}

impl Drop for PodHandle {
    #[inline(always)]
    fn drop(self) {
        let _ = self.into_option();
    }
}
