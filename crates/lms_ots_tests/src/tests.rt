mod lanes;
mod ots;
mod params;
mod slow;
