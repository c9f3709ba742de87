//! An instance with the routes of its jobs.
use crate::route::Route;
use std::alloc::{Allocator, Global};
use std::marker::Model;
use tf_model::instance::Instance;

/// An instance, and the route of each of its jobs, in the order of the jobs.
#[derive(Drop)]
pub struct RoutedInstance<A: Allocator = Global> {
    pub instance: Instance<A>,
    pub routes: Vec<Route<A>, A>,
}

impl<A: Allocator> Model for RoutedInstance<A> {
    ghost use Rattle.tf_routes.specs.RoutedData.{RoutedData};

    ghost Value = { RoutedData };

    ghost view = { λ r. record { instance = r.instance; routes = r.routes.items } };
}
