ghost use Rattle.std.specs.Prelude.{◌≡◌};
ghost use Rattle.morph_cli.specs.Runs.{layout_of};

use event_reader::EventApp;
use morph_base::Layout;
use run_text::Settings;
use std::alloc::Global;

/// What a run has to work with, whatever it runs.
#[derive(Drop)]
pub struct Host<'a, R, G> {
    /// What starts threads.
    pub rt: &'a R,
    pub alloc: Global,
    /// What may hold the workers of a batch.
    pub gate: &'a G,
}

/// What a run is to do: an application, by the settings, with what the host has.
#[derive(Drop)]
pub struct Job<'a, A, R, G> {
    pub host: &'a Host<'a, R, G>,
    pub app: A,
    pub settings: Settings,
}

impl<'a, A: EventApp, R, G> Job<'a, A, R, G> {
    /// The tables of the application, with as many ids each as the settings say.
    pub fn layout(&self) -> Layout
        ensures { result ≡ layout_of (A.table_count self.now.app) self.now.settings.size }
    {
        Layout {
            tables: self.app.tables(),
            size: self.settings.size,
        }
    }
}
